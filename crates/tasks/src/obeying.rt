//! Runs a subcommand.
//!
//! The program calls only `obey`. The drops of database files, sockets and streams are therefore
//! proved here, and not again in the program.
ghost use Rattle.sqlite.specs.WalFiles.{image_at};
ghost use Rattle.sqlite_std_file.specs.File.{IsFresh};
ghost use Rattle.arguments.specs.Words.{InRange};
ghost use Rattle.tasks.specs.Obeys.{Obeys};

use crate::files::{TaskFile, report, serve};
use crate::store_tasks::ServeTask;
use crate::streams::{feed, over_streams};
use arguments::Words;
use event_lines::{EventLog, Level};
use sqlite::FileFrom;
use sqlite_disk::{Disk, Start};
use std::io::Write;
use subcommands::{End, wanted_of};

/// Runs the subcommand in `words`, and writes the event lines of `level` to standard error.
/// `contents` represents the contents of the two files of a database before the run. The contract
/// holds for any such contents.
pub fn obey<S: Start>(rt: &HostRuntime, words: Words, contents: S, level: Level) -> End
    requires { InRange words }
    ensures { Obeys ⟦<FileFrom<S> as Disk>⟧ (image_at S.Start) IsFresh level words result }
{
    let mut events = EventLog::new(level, rt.stderr());
    obey_noted(rt, words, contents, level, &mut events)
}

// Runs the subcommand in `words`, and writes event lines to `events`.
fn obey_noted<S: Start, E: Write + Drop>(
    rt: &HostRuntime,
    words: Words,
    contents: S,
    level: Level,
    events: &mut EventLog<E>,
) -> End
    requires { InRange words }
    ensures { Obeys ⟦<FileFrom<S> as Disk>⟧ (image_at S.Start) IsFresh level words result }
{
    let wanted = wanted_of(&words);
    match words {
        Words::Serve { db, port, turns } => {
            let path = db.as_str();
            let task = ServeTask {
                rt,
                path,
                port,
                turns,
                level,
            };
            serve(task, contents, wanted, events)
        }
        Words::Report { db, batch } => {
            let file = TaskFile {
                path: db.as_str(),
                wanted,
            };
            report(rt, file, contents, batch, events)
        }
        Words::Feed { port, start } => feed(rt, port, start, events),
        words => over_streams(rt, words, events),
    }
}
