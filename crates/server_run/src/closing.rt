//! Closes the store of a server, and writes the event line of the close.
ghost use Rattle.std.specs.Prelude.{◌≡◌, IfErr, IfOk, OnOk};
ghost use Rattle.event_lines.specs.Notes.{NotesAll};
ghost use Rattle.event_lines.specs.Views.{text_of};
ghost use Rattle.server_run.specs.Openings.{closing_line, closing_lines};

use crate::line::fault_word;
use event_lines::{EventLine, EventLog};
use job_facts::{ServerStore, StoreFault};
use std::alloc::{AllocError, Global};
use std::io::Write;

/// Closes `store` after `count` connections, and writes the event line.
///
/// # Errors
///
/// Returns the fault if the store can't be closed.
pub(crate) fn close<S: ServerStore, E: Write + Drop>(
    alloc: Global,
    store: S,
    events: &mut EventLog<E>,
    count: u32,
) -> Result<(), StoreFault>
    ensures closed { OnOk result (S.closed store) }
    ensures fault { IfErr result (λ fault. S.unclosed store fault) }
    ensures noted { NotesAll events.old.level (E.contents events.old.writer)
        (E.contents events.new.writer) (closing_lines events.old.level count result) }
{
    let closing = store.finish();
    if events.is_on() {
        events.note(closing_line(alloc, count, closing));
    }
    closing
}

fn closing_line(
    alloc: Global,
    count: u32,
    closing: Result<(), StoreFault>,
) -> Result<EventLine, AllocError>
    ensures { IfOk result (λ line. text_of line ≡ closing_line count closing) }
{
    match closing {
        Ok(()) => EventLine::new(alloc, "closed")?.number("connections", u64::from(count)),
        Err(fault) => EventLine::new(alloc, "unclosed")?.word("fault", fault_word(fault)),
    }
}
