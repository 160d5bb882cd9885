//! Reports a WAL that looks damaged and that another program wrote.
ghost use Rattle.std.specs.Prelude.{◌≡◌, ◌∷◌, [], IfOk};
ghost use Rattle.event_lines.specs.Notes.{NotesAll};
ghost use Rattle.event_lines.specs.Views.{text_of};
ghost use Rattle.subcommands.specs.Suspect.{suspect_line};

use event_lines::{EventLine, EventLog};
use std::alloc::{AllocError, Global};
use std::io::Write;

/// Writes the event line of a WAL that looks damaged and that another program wrote. `path` is the
/// path of the database file. Such a WAL is never refused.
pub fn note_suspect_wal<E: Write + Drop>(alloc: Global, path: &[u8], events: &mut EventLog<E>)
    ensures level { events.new.level ≡ events.old.level }
    ensures noted { NotesAll events.old.level (E.contents events.old.writer)
        (E.contents events.new.writer) (suspect_line path.now ∷ []) }
{
    events.note(suspect_line(alloc, path));
}

fn suspect_line(alloc: Global, path: &[u8]) -> Result<EventLine, AllocError>
    ensures { IfOk result (λ line. text_of line ≡ suspect_line path.now) }
{
    EventLine::new(alloc, "suspect-wal")?.quoted("db", path)
}
