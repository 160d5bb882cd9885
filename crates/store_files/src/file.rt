//! Opens the store in a database file, and runs a task over it.
ghost use Rattle.std.specs.Prelude.{◌≡◌, codes, false, IfErr, IfOk, IsErrAnd, IsTrue};
ghost use Rattle.sqlite.specs.WalFiles.{image_at};
ghost use Rattle.sqlite_std_file.specs.File.{IsFresh};
ghost use Rattle.over_tables.specs.Refusals.{IsNotOurs};
ghost use Rattle.store_files.specs.Files.{IsNotTaken, IsTurnedDown, MayHaveCommits, OverFiles};
ghost use Rattle.store_files.specs.Files.{RunsOver};

use crate::faults::absent;
use crate::new_file::create_private;
use crate::place::{is_missing, place_of};
use crate::wal::open_whole;
use over_tables::{FileFault, Wanted, begins, older_version, store_over};
use schema::SqlStore;
use sqlite::{Connection, FileFrom, FileStore};
use sqlite_disk::{Disk, Start};
use std::alloc::Global;

/// A task that uses the store in a database file, and closes it.
pub trait StoreTask {
    ghost use Rattle.sqlite.specs.Files.{over_files};
    ghost use Rattle.job_facts.specs.Store.{State};
    ghost use Rattle.job_facts.specs.declared.store.StoreFault.{StoreFault as Fault};
    ghost use Rattle.schema.specs.Stores.{stands_for};
    ghost use Rattle.store_files.specs.Ending.{AtEnd};
    ghost use Rattle.store_files.specs.declared.file.FileState.{FileState as How};

    /// The result of the task.
    type Done: Drop;

    /// `ran task found state at_end done` says that the task has the result `done` if its file was
    /// found as `found` and its store is in the state `state`. `at_end` is about the last state of
    /// the store, about the statement that the database file is then complete, and about the
    /// possible faults of the close.
    ghost ran: { Self → How → State
        → ((State → Type 0 → (Fault → Type 0) → Type 0) → Type 0) → Self.Done → Type 0 };

    /// Performs the task with `store`, and closes the store.
    fn perform<D: Disk + Drop>(self, store: SqlStore<FileStore<D>>, found: FileState) -> Self::Done
        ensures { ran self found (stands_for over_files store) (AtEnd D.Disk) result };
}

/// The state of a database file before a task.
#[derive(Clone, Copy, Debug, PartialEq, Eq)]
pub struct FileState {
    /// `true` if the database was empty, so that a new store was created.
    pub is_new: bool,
    /// `true` if there was a WAL next to the file that was longer than after an ordinary exit, so
    /// it may have commits for the file.
    pub has_log: bool,
    /// The number of the older schema version from which the database was upgraded, if it was.
    pub older: Option<u8>,
}

/// Opens the store in the database file at `path`, and performs `task`, which closes the store.
/// `wanted` says whether a new store may be created. `start` represents the contents of the two
/// files before the call. The contract holds for any such contents, and doesn't relate them to
/// `path`.
///
/// A new database has no page checksums, because SQLite's own library wouldn't keep them correct.
///
/// # Errors
///
/// Returns the reason why the file isn't opened. The task is then not performed.
///
/// - `NotOurs`: `path` is `:memory:`, the file doesn't exist and must not be created, its WAL is
///   damaged, SQLite can't open it, or its tables don't have the form of any schema version.
/// - `Damaged`: the rows don't represent sound contents.
/// - `Storage`: the device of the file failed or is full.
/// - `Memory`: an allocation fails.
pub fn with_store<T: StoreTask + Drop, S: Start>(
    rt: &HostRuntime,
    path: &str,
    start: S,
    wanted: Wanted,
    task: T,
) -> Result<T::Done, FileFault>
    ensures done { IfOk result (λ done. OverFiles ⟦<FileFrom<S> as Disk>⟧ (image_at S.Start)
        (λ conn. RunsOver conn (MayHaveCommits (image_at S.Start)) wanted (T.ran task) done)) }
    ensures not_taken { IfErr result
        (IsNotTaken ⟦<FileFrom<S> as Disk>⟧ (image_at S.Start) IsFresh wanted) }
    ensures memory { path.now ≡ codes ":memory:" → IsErrAnd result IsNotOurs }
{
    if wanted == Wanted::Ours && is_missing(rt, path)? {
        return Err(absent(place_of(rt, path)?));
    }
    create_private(rt, path, wanted)?;
    match open_whole(rt, path, start) {
        Ok((conn, has_log)) => run_over(rt.alloc(), conn, has_log, wanted, task),
        Err(fault) => Err(fault),
    }
}

// Opens the store over the database `conn`, and performs `task`.
fn run_over<T: StoreTask + Drop, D: Disk + Drop>(
    alloc: Global,
    conn: Connection<FileStore<D>>,
    has_log: bool,
    wanted: Wanted,
    task: T,
) -> Result<T::Done, FileFault>
    requires { conn.in_transaction ≡ false }
    ensures done { IfOk result (RunsOver conn (IsTrue has_log) wanted (T.ran task)) }
    ensures turned_down { IfErr result (IsTurnedDown conn wanted) }
{
    let is_new = begins(&conn, wanted);
    let older = match older_version(alloc, &conn) {
        Ok(older) => older,
        Err(fault) => return Err(fault),
    };
    match store_over(alloc, conn, wanted) {
        Ok(store) => Ok(task.perform(
            store,
            FileState {
                is_new,
                has_log,
                older,
            },
        )),
        Err((_, fault)) => Err(fault),
    }
}
