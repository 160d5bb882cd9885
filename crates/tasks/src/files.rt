//! Runs a task over the store in a database file.
ghost use Rattle.std.specs.Prelude.{◌≡◌};
ghost use Rattle.sqlite.specs.WalFiles.{image_at};
ghost use Rattle.sqlite_std_file.specs.File.{IsFresh};
ghost use Rattle.tasks.specs.Tasks.{EndsOver, ReportsOver, ServesOver, end_of_taken};
ghost use Rattle.tasks.specs.declared.store_tasks.ReportTask.{ReportTask as Task};

use crate::store_tasks::{ReportTask, ServeTask};
use event_lines::EventLog;
use file_runs::{files_keep_runs, refused_files_keep_runs, runs_find_files};
use over_tables::{FileFault, Wanted};
use reply_store::laws::left_in_turn;
use schema::SqlStore;
use sqlite::{FileFrom, FileStore};
use sqlite_disk::{Disk, Start};
use std::alloc::Global;
use std::io::Write;
use store_data::Name;
use store_files::{StoreTask, has_suspect_wal, with_store};
use subcommands::{End, note_refusal, note_suspect_wal};

/// The database file of a task.
#[derive(Clone, Copy)]
pub struct TaskFile<'a> {
    pub path: &'a str,
    /// Says whether a new store may be created.
    pub wanted: Wanted,
}

/// Serves connections over the store in the database file of `task`, and closes the store. Writes
/// event lines about the file to `events`, and all other event lines to standard error. `wanted`
/// says whether a new store may be created. `contents` represents the contents of the two files
/// before the run. The contract holds for any such contents.
pub fn serve<S: Start, E: Write + Drop>(
    task: ServeTask<'_>,
    contents: S,
    wanted: Wanted,
    events: &mut EventLog<E>,
) -> End
    ensures { ServesOver ⟦<FileFrom<S> as Disk>⟧ (image_at S.Start) IsFresh wanted task.entry
        result }
{
    left_in_turn::<SqlStore<FileStore<FileFrom<S>>>>();
    runs_find_files::<FileFrom<S>>();
    files_keep_runs::<FileFrom<S>>();
    refused_files_keep_runs::<FileFrom<S>>();
    let rt = task.rt;
    let path = task.path;
    let file = TaskFile { path, wanted };
    over_file(rt, file, contents, task, events)
}

/// Prints the report of `batch` from the store in the database file `file` to standard output, and
/// closes the store. Writes event lines about the file to `events`. `contents` represents the
/// contents of the two files before the run. The contract holds for any such contents.
pub fn report<S: Start, E: Write + Drop>(
    rt: &HostRuntime,
    file: TaskFile<'_>,
    contents: S,
    batch: Name,
    events: &mut EventLog<E>,
) -> End
    ensures { (task : Task) × (task.batch ≡ batch)
        × ReportsOver ⟦<FileFrom<S> as Disk>⟧ (image_at S.Start) IsFresh file.entry.wanted task
        result }
{
    left_in_turn::<SqlStore<FileStore<FileFrom<S>>>>();
    runs_find_files::<FileFrom<S>>();
    files_keep_runs::<FileFrom<S>>();
    refused_files_keep_runs::<FileFrom<S>>();
    let task = ReportTask { rt, batch };
    over_file(rt, file, contents, task, events)
}

// Performs a task over the store in the database file `file`.
fn over_file<T: StoreTask<Done = End> + Drop, S: Start, E: Write + Drop>(
    rt: &HostRuntime,
    file: TaskFile<'_>,
    contents: S,
    task: T,
    events: &mut EventLog<E>,
) -> End
    ensures { EndsOver ⟦<FileFrom<S> as Disk>⟧ (image_at S.Start) IsFresh file.entry.wanted
        (T.ran task) result }
{
    let TaskFile { path, wanted } = file;
    note_suspect(rt, path, events);
    let taken = with_store(rt, path, contents, wanted, task);
    end_of_taken(rt.alloc(), taken, path, events)
}

// Returns the end of a run over the database file at `path`. If the file was refused, writes an
// event line with the cause.
fn end_of_taken<E: Write + Drop>(
    alloc: Global,
    taken: Result<End, FileFault>,
    path: &str,
    events: &mut EventLog<E>,
) -> End
    ensures { result ≡ end_of_taken taken }
{
    match taken {
        Ok(end) => end,
        Err(fault) => {
            note_refusal(alloc, &fault, path.as_bytes(), events);
            End::from(fault)
        }
    }
}

// Writes the event line of a WAL that looks damaged. Another program wrote such a WAL, and no
// subcommand refuses it. SQLite drops everything after the damage when it opens the file, so the
// WAL is examined first.
fn note_suspect<E: Write + Drop>(rt: &HostRuntime, path: &str, events: &mut EventLog<E>) {
    if events.is_on() && has_suspect_wal(rt, path) {
        note_suspect_wal(rt.alloc(), path.as_bytes(), events);
    }
}
