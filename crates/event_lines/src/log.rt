//! Writes event lines to a writer.
ghost use Rattle.std.specs.Prelude.{◌≡◌, ◌≢◌, ◌↔◌, ℕ, List, [], ◌∷◌, ◌++◌, IfOk, IsTrue};
ghost use Rattle.text_io.specs.Written.{AppendsBeginning};
ghost use Rattle.event_lines.specs.Notes.{NotesAll};
ghost use Rattle.event_lines.specs.Views.{text_of};

use crate::level::Level;
use crate::line::EventLine;
use std::alloc::AllocError;
use std::io::Write;
use text_io::write_text;

/// A writer of event lines with its level.
#[derive(Drop)]
pub struct EventLog<W: Write + Drop> {
    pub level: Level,
    pub writer: W,
}

impl<W: Write + Drop> EventLog<W> {
    /// Creates a log that writes the lines of `level` to `writer`.
    pub fn new(level: Level, writer: W) -> EventLog<W>
        ensures level { result.level ≡ level }
        ensures writer { result.writer ≡ writer }
    {
        EventLog { level, writer }
    }

    /// Returns `true` if any lines are written.
    pub fn is_on(&self) -> bool
        ensures { IsTrue result ↔ (self.now.level ≢ Level.Off) }
    {
        self.level != Level::Off
    }

    /// Writes `line`, unless the level is `Off`. If a write or an allocation fails, only a prefix
    /// of the line is written, and no error is reported: event lines never stop the program. Only
    /// tests show that the whole line is written if nothing fails.
    pub fn note(&mut self, line: Result<EventLine, AllocError>)
        ensures level { self.new.level ≡ self.old.level }
        ensures noted { (text : List ℕ) → IfOk line (λ made. text_of made ≡ text)
            → NotesAll self.old.level (W.contents self.old.writer)
            (W.contents self.new.writer) (text ∷ []) }
    {
        if !self.is_on() {
            return;
        }
        if let Ok(line) = line {
            write_line(&mut self.writer, line);
        }
    }
}

// Writes `line`, or a prefix of it if a write or an allocation fails.
fn write_line<W: Write>(writer: &mut W, line: EventLine)
    ensures { AppendsBeginning (W.contents writer.old) (W.contents writer.new)
        (text_of line ++ 10 ∷ []) }
{
    if let Ok(bytes) = line.into_bytes() {
        let _ = write_text(writer, bytes.as_slice());
    }
}
