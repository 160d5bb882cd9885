//! Reports that a server can't listen on its port.
ghost use Rattle.std.specs.Prelude.{◌≡◌, ◌∷◌, [], IfOk};
ghost use Rattle.std.specs.IoError.{error_kind};
ghost use Rattle.event_lines.specs.Notes.{NotesAll};
ghost use Rattle.event_lines.specs.Views.{text_of};
ghost use Rattle.subcommands.specs.Unstarted.{end_of_port, port_word, unstarted_line};

use crate::end::End;
use event_lines::{EventLine, EventLog};
use std::alloc::{AllocError, Global};
use std::io::{self, ErrorKind, Write};

/// Writes the event line of a server that can't listen on `port` because of `error`, and returns
/// the end of its run.
pub fn note_unstarted<E: Write + Drop>(
    alloc: Global,
    error: io::Error,
    port: u16,
    events: &mut EventLog<E>,
) -> End
    ensures level { events.new.level ≡ events.old.level }
    ensures noted { NotesAll events.old.level (E.contents events.old.writer)
        (E.contents events.new.writer) (unstarted_line (error_kind error) port ∷ []) }
    ensures end { result ≡ end_of_port (error_kind error) }
{
    let kind = error.kind();
    events.note(unstarted_line(alloc, kind, port));
    end_of_port(kind)
}

fn unstarted_line(alloc: Global, kind: ErrorKind, port: u16) -> Result<EventLine, AllocError>
    ensures { IfOk result (λ line. text_of line ≡ unstarted_line kind port) }
{
    EventLine::new(alloc, "unstarted")?
        .word("cause", port_word(kind))?
        .number("port", u64::from(port))
}

fn port_word(kind: ErrorKind) -> &'static str
    ensures { result.now ≡ port_word kind }
{
    match kind {
        ErrorKind::AddrInUse => "port-in-use",
        ErrorKind::PermissionDenied => "no-right",
        ErrorKind::AddrNotAvailable => "no-address",
        ErrorKind::OutOfMemory => "memory",
        _ => "device",
    }
}

fn end_of_port(kind: ErrorKind) -> End
    ensures { result ≡ end_of_port kind }
{
    match kind {
        ErrorKind::OutOfMemory => End::Memory,
        _ => End::PortFailed,
    }
}
