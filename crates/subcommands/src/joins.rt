//! Connects the arguments of `persod` with its streams, its database file and its event lines.
ghost use Rattle.std.specs.Prelude.{◌≡◌, ◌++◌, IfOk, option_map};
ghost use Rattle.event_lines.specs.Notes.{NotesAll};
ghost use Rattle.event_lines.specs.Views.{text_of};
ghost use Rattle.subcommands.specs.Joins.{Explains, commits_pair, end_of_close, level_by};
ghost use Rattle.subcommands.specs.Joins.{damaged_line, not_ours_line, refusal_lines};
ghost use Rattle.subcommands.specs.Joins.{refusal_start, table_pair, wanted_of};

use crate::end::End;
use arguments::{Words, WordsFault};
use event_lines::{EventLine, EventLog, Level, level_of};
use job_facts::StoreFault;
use over_tables::{Cause, DAMAGED, FileFault, NOT_OURS, Wanted};
use std::alloc::{AllocError, Global};
use std::env::VarError;
use std::io::Write;
use text_io::{WriteFailed, write_text};

/// Returns the level of event lines for `variable`, the value of `PERSOD_LOG`. A value that isn't
/// UTF-8 means the usual lines. If an allocation failed, no lines are written.
pub fn level_by(variable: &Result<String, VarError>) -> Level
    ensures { result ≡ level_by variable.now }
{
    match variable {
        Ok(value) => level_of(Some(value.as_bytes())),
        Err(VarError::NotPresent) => level_of(None),
        Err(VarError::NotUnicode) => Level::Usual,
        Err(VarError::OutOfMemory) => Level::Off,
    }
}

/// Returns which database files a subcommand opens: only `serve` creates a file that doesn't exist.
pub fn wanted_of(words: &Words) -> Wanted
    ensures { result ≡ wanted_of words.now }
{
    match words {
        Words::Serve { .. } => Wanted::Any,
        Words::Plan { .. } | Words::Drill | Words::Report { .. } | Words::Feed { .. } => {
            Wanted::Ours
        }
    }
}

/// Prints the text of `fault`: help and the version to `output`, and a usage error to `errors`. The
/// other faults have no text here; `exit_of` has their words.
///
/// # Errors
///
/// Returns `WriteFailed` if a write fails. A prefix of the text was written then.
pub fn explain<O: Write, E: Write>(
    fault: &WordsFault,
    output: &mut O,
    errors: &mut E,
) -> Result<(), WriteFailed>
    ensures { Explains fault.now (O.contents output.old) (O.contents output.new)
        (E.contents errors.old) (E.contents errors.new) result }
{
    match fault {
        WordsFault::Help(text) | WordsFault::Version(text) => write_text(output, text.as_bytes()),
        WordsFault::Usage(text) => write_text(errors, text.as_bytes()),
        WordsFault::NotText | WordsFault::BadName | WordsFault::Memory => Ok(()),
    }
}

/// Returns the end of a run over a store that was then closed: `end`, or the fault of the close.
pub fn end_of_close(end: End, closed: Result<(), StoreFault>) -> End
    ensures { result ≡ end_of_close end closed }
{
    match closed {
        Ok(()) => end,
        Err(fault) => End::from(fault),
    }
}

/// Writes the event line of a refused database file: the code of the refusal, the cause, the number
/// of commits or the table that the cause names, and the path. A fault of the device or of memory
/// has no line.
pub fn note_refusal<E: Write + Drop>(
    alloc: Global,
    fault: &FileFault,
    path: &[u8],
    events: &mut EventLog<E>,
)
    ensures level { events.new.level ≡ events.old.level }
    ensures noted { NotesAll events.old.level (E.contents events.old.writer)
        (E.contents events.new.writer) (refusal_lines fault.now path.now) }
{
    match fault {
        FileFault::NotOurs { cause } => events.note(not_ours_line(alloc, cause, path)),
        FileFault::Damaged { cause } => events.note(damaged_line(alloc, cause.word(), path)),
        FileFault::Storage | FileFault::Memory => (),
    }
}

fn not_ours_line(alloc: Global, cause: &Cause, path: &[u8]) -> Result<EventLine, AllocError>
    ensures { IfOk result (λ line. text_of line ≡ not_ours_line cause.now path.now) }
{
    let line = refusal_start(alloc, NOT_OURS, cause.word())?;
    let line = with_commits(line, cause.commits())?;
    with_table(line, cause.name())?.quoted("db", path)
}

fn damaged_line(alloc: Global, cause: &str, path: &[u8]) -> Result<EventLine, AllocError>
    ensures { IfOk result (λ line. text_of line ≡ damaged_line cause.now path.now) }
{
    refusal_start(alloc, DAMAGED, cause)?.quoted("db", path)
}

// Returns the start of the line: the code of the refusal and the cause.
fn refusal_start(alloc: Global, code: u16, cause: &str) -> Result<EventLine, AllocError>
    ensures { IfOk result (λ line. text_of line ≡ refusal_start code cause.now) }
{
    EventLine::new(alloc, "refused")?
        .number("code", u64::from(code))?
        .word("cause", cause)
}

// Adds the number of commits, if there is one.
fn with_commits(line: EventLine, commits: Option<u64>) -> Result<EventLine, AllocError>
    ensures { IfOk result (λ more. text_of more ≡ text_of line ++ commits_pair commits) }
{
    match commits {
        Some(commits) => line.number("commits", commits),
        None => Ok(line),
    }
}

// Adds the table, if there is one.
fn with_table(line: EventLine, table: Option<&[u8]>) -> Result<EventLine, AllocError>
    ensures { IfOk result (λ more. text_of more
        ≡ text_of line ++ table_pair (option_map (λ name. name.now) table.entry)) }
{
    match table {
        Some(name) => line.quoted("table", name),
        None => Ok(line),
    }
}
