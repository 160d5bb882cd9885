//! Reads and audits the database file at a path.
ghost use Rattle.std.specs.Prelude.{◌≡◌, ◌⊎◌, false, IfErr, IfOk, IfSome, IsOk, IsSome};
ghost use Rattle.sqlite.specs.WalFiles.{image_at};
ghost use Rattle.sqlite.specs.WalReads.{AreClean};
ghost use Rattle.sqlite_std_file.specs.File.{IsFresh};
ghost use Rattle.store_files.specs.Wal.{IsWholeWal};
ghost use Rattle.book_file.specs.Files.{AreOnlyRead, IsAnswer, IsOfPath, IsReadOf, empty};
ghost use Rattle.book_file.specs.Found.{HasVerdict};
ghost use Rattle.book_file.specs.Left.{HoldsStill, IsLeft, IsLog, WereClosed, unguarded};

use crate::book::Book;
use crate::guarded::Guarded;
use crate::opening::{GuardedFile, open_guarded};
use crate::reading::read_book;
use examination::Difference;
use over_tables::{Cause, FileFault};
use sqlite::{Connection, Error, ErrorCode, FileFrom, FileStore};
use sqlite_disk::{self, Disk, Start};
use std::alloc::{AllocError, AllocGlobal, Global};
use std::fs::Files;
use store_files::{
    Place, files_at, has_log, has_more, place_of, refuse_damaged, refuse_damaged_at, unopened,
};

/// The result of reading a database file, and its two files if they were opened.
pub type BookWithFiles<S> = (
    Result<Book, FileFault>,
    Option<sqlite_disk::Files<FileFrom<S>>>,
);

/// Reads and audits the database file at `path`, and returns its two files if they were opened.
/// `start` represents the contents of the two files before the call.
///
/// The database file isn't written, and the WAL keeps everything that it has for the database file.
/// If the two files have returned what was written to them, the book has the rows of the database
/// that they held when they were opened, and the WAL had lost no commits. They still hold this
/// database, even after a crash. Opening the database may write to the WAL, and no checkpoint
/// follows.
///
/// The answers of the file system have no contract. Only tests therefore show which files are
/// opened, that an error without files has a true cause, and that the bytes of the WAL don't
/// change.
///
/// # Errors
///
/// Returns the reason why the file isn't read. Rows that break an audit rule aren't an error.
///
/// - `NotOurs`: the file doesn't exist or is empty, its WAL is damaged, SQLite can't open it, or
///   its tables don't have the form of any schema version.
/// - `Damaged`: a row has a value that no row of its table can have.
/// - `Storage`: the device of the file failed.
/// - `Memory`: an allocation fails.
pub fn book_in<S: Start>(rt: &HostRuntime, path: &str, start: S) -> BookWithFiles<S>
    ensures { IsAnswer ⟦<GuardedFile<S> as Disk>⟧ IsFresh result }
{
    match place_of(rt, path) {
        Ok(Place::File { is_sqlite: _ }) => match refuse_blank(rt, path) {
            Ok(()) => book_at(rt, path, start),
            Err(fault) => (Err(fault), None),
        },
        Ok(Place::NoFile) => {
            let cause = Cause::NoFile;
            (Err(FileFault::NotOurs { cause }), None)
        }
        place => {
            let refused = Error::SqliteFailure(ErrorCode::CannotOpen);
            (Err(unopened(refused, place)), None)
        }
    }
}

// Refuses a file in which SQLite would create a database. If its WAL is damaged, the fault reports
// the damage.
fn refuse_blank(rt: &HostRuntime, path: &str) -> Result<(), FileFault>
    ensures { IfErr result IsOfPath }
{
    match is_blank(rt, path) {
        Ok(true) => Err(blank(rt, path)),
        Ok(false) => Ok(()),
        Err(AllocError) => Err(FileFault::Memory),
    }
}

// Returns the refusal of a file in which SQLite would create a database.
fn blank(rt: &HostRuntime, path: &str) -> FileFault
    ensures { IsOfPath result }
{
    match refuse_damaged_at(rt, path) {
        Ok(()) => empty(),
        Err(fault) => fault,
    }
}

// Returns the refusal of a file without tables.
fn empty() -> FileFault
    ensures { result ≡ empty }
{
    let difference = Difference::Empty;
    let cause = Cause::Tables { difference };
    FileFault::NotOurs { cause }
}

// Returns `true` if SQLite would create a database in the file. It would then drop the WAL, so an
// empty file is never opened, even if its WAL has commits.
fn is_blank<R: Files + AllocGlobal>(rt: &R, path: &str) -> Result<bool, AllocError> {
    Ok(!has_more(rt, path, 0)? || (!has_more(rt, path, 1)? && !has_log(rt, path)?))
}

// Reads and audits the database file at `path`, which isn't empty. Both files are locked from
// before the WAL is examined until they are closed. SQLite gets them only if the WAL isn't damaged,
// because it drops everything after the damage when it opens the files.
fn book_at<S: Start>(rt: &HostRuntime, path: &str, start: S) -> BookWithFiles<S>
    ensures { IsAnswer ⟦<GuardedFile<S> as Disk>⟧ IsFresh result }
{
    let mut files = match files_at(rt, path, start) {
        Ok(files) => files,
        Err(error) => return (Err(unopened(error, place_of(rt, path))), None),
    };
    match refuse_damaged(rt.alloc(), &mut files) {
        Ok(()) => read_files(rt, path, files),
        Err(fault) => (Err(fault), Some(files)),
    }
}

// Reads and audits the database in the two files at `path`, whose WAL isn't damaged.
fn read_files<S: Start>(
    rt: &HostRuntime,
    path: &str,
    files: sqlite_disk::Files<FileFrom<S>>,
) -> BookWithFiles<S>
    requires read { AreOnlyRead ⟦<FileFrom<S> as Disk>⟧ IsFresh (image_at S.Start) files }
    requires whole { AreClean ⟦<FileFrom<S> as Disk>⟧ files.log files.db
        → IsWholeWal (image_at S.Start) }
    ensures { IsAnswer ⟦<GuardedFile<S> as Disk>⟧ IsFresh result }
{
    match open_guarded(rt, files) {
        Ok(conn) => {
            let (read, files) = read_and_leave(rt.alloc(), conn);
            with_files(read, files)
        }
        Err((_, Some(files))) if files.db.was_to_be_written() => with_files(Err(empty()), files),
        Err((error, Some(files))) => with_files(Err(unopened(error, place_of(rt, path))), files),
        Err((error, None)) => (Err(unopened(error, place_of(rt, path))), None),
    }
}

// Reads and audits the database `conn`, and closes its files without a checkpoint.
fn read_and_leave<D: Disk + Drop>(
    alloc: Global,
    mut conn: Connection<FileStore<D>>,
) -> (Result<Book, FileFault>, sqlite_disk::Files<D>)
    requires { conn.in_transaction ≡ false }
    ensures verdict { IfOk result.0 (λ book. HasVerdict book.tables book.failing) }
    ensures read { AreClean D.Disk result.1.log result.1.db → IsReadOf conn result.0 result.1 }
    ensures closed { WereClosed D.Disk result.1 }
{
    let read = read_book(alloc, &mut conn);
    let files = leave(conn);
    (read, files)
}

// Returns `read` with the two files, which are no longer guarded. If the WAL was returned as the
// database file, returns `Storage` without files.
fn with_files<D: Disk + Drop, S: Start>(
    read: Result<Book, FileFault>,
    files: sqlite_disk::Files<Guarded<D, S>>,
) -> (Result<Book, FileFault>, Option<sqlite_disk::Files<D>>)
    requires { IfOk read (λ book. HasVerdict book.tables book.failing) }
    ensures verdict { IfOk result.0 (λ book. HasVerdict book.tables book.failing) }
    ensures given { IsOk result.0 → IsSome result.1 }
    ensures left { IfSome result.1 (λ files. HoldsStill D.Disk S.Start.db files.db) }
    ensures same { (result ≡ (read, Some (unguarded files)))
        ⊎ (IsLog files.db × (result ≡ (Err FileFault.Storage, None))) }
{
    let log = files.log.into_file();
    match files.db.into_database() {
        Some(db) => (read, Some(sqlite_disk::Files { log, db })),
        None => (Err(FileFault::Storage), None),
    }
}

// Closes the files of a connection without a checkpoint.
fn leave<D: Disk + Drop>(conn: Connection<FileStore<D>>) -> sqlite_disk::Files<D>
    ensures { IsLeft conn result }
{
    conn.into_store().close()
}
