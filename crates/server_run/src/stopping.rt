//! Writes the lines of a server, and defines the reasons why it stops.
ghost use Rattle.std.specs.Prelude.{◌≡◌};
ghost use Rattle.server_run.specs.ServerLines.{WritesLine, listening_text, numbered, of_next};
ghost use Rattle.server_run.specs.ServerLines.{served_text};
ghost use Rattle.server_run.specs.declared.stopping.ServeStop.TheVariants.{Memory, Write};

use job_facts::StoreFault;
use server::NextFault;
use std::alloc::{AllocError, Global};
use std::io;
use text_io::{WriteFailed, write_text};

/// The reason why a server stops before its last line.
#[derive(Clone, Copy, Debug, PartialEq, Eq)]
pub enum ServeStop {
    /// The next connection can't be accepted.
    Next,
    /// One of the two lines can't be written.
    Write,
    /// An allocation failed.
    Memory,
    /// All connections were served, but the store couldn't be closed.
    Store { fault: StoreFault },
}

impl From<NextFault> for ServeStop {
    ghost from_gives = { λ fault stop. stop ≡ of_next fault };

    fn from(fault: NextFault) -> ServeStop {
        match fault {
            NextFault::Device => ServeStop::Next,
            NextFault::Memory => ServeStop::Memory,
        }
    }
}

impl From<AllocError> for ServeStop {
    ghost from_gives = { λ _ stop. stop ≡ Memory };

    fn from(_error: AllocError) -> ServeStop {
        ServeStop::Memory
    }
}

impl From<WriteFailed> for ServeStop {
    ghost from_gives = { λ _ stop. stop ≡ Write };

    fn from(_error: WriteFailed) -> ServeStop {
        ServeStop::Write
    }
}

/// Writes a line with the port, and flushes it.
///
/// # Errors
///
/// - `Write`: the line can't be written.
/// - `Memory`: an allocation fails. Nothing is written.
pub(crate) fn write_listening<W: io::Write>(
    alloc: Global,
    port: u32,
    writer: &mut W,
) -> Result<(), ServeStop>
    ensures { WritesLine (W.contents writer.old) (W.contents writer.new) (listening_text port)
        result }
{
    write_number(alloc, "listening 127.0.0.1:", port, writer)
}

/// Writes a line with `turns`, the number of connections served, and flushes it.
///
/// # Errors
///
/// - `Write`: the line can't be written.
/// - `Memory`: an allocation fails. Nothing is written.
pub(crate) fn write_served<W: io::Write>(
    alloc: Global,
    turns: u32,
    writer: &mut W,
) -> Result<(), ServeStop>
    ensures { WritesLine (W.contents writer.old) (W.contents writer.new) (served_text turns)
        result }
{
    write_number(alloc, "served ", turns, writer)
}

// Writes a line with `words` and `number`, and flushes it.
fn write_number<W: io::Write>(
    alloc: Global,
    words: &str,
    number: u32,
    writer: &mut W,
) -> Result<(), ServeStop>
    ensures { WritesLine (W.contents writer.old) (W.contents writer.new)
        (numbered words.now number) result }
{
    let text = format!(in alloc; "{words}{number}\n")?;
    write_flushed(writer, text.as_bytes())
}

// Writes `text` and flushes it.
fn write_flushed<W: io::Write>(writer: &mut W, text: &[u8]) -> Result<(), ServeStop>
    ensures { WritesLine (W.contents writer.old) (W.contents writer.new) text.now result }
{
    write_text(writer, text)?;
    match writer.flush() {
        Ok(()) => Ok(()),
        Err(_) => Err(ServeStop::Write),
    }
}
