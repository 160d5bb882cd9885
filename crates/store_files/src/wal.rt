//! Opens the two files of a database, unless their WAL is damaged.
ghost use Rattle.std.specs.Prelude.{◌≡◌, ◌⊎◌, ◌↔◌, ◌<◌, codes, true, false, length, None};
ghost use Rattle.std.specs.Prelude.{IfErr, IfOk, IsErrAnd, IsTrue, OnOk};
ghost use Rattle.sqlite_disk.specs.Disk.{MoreFaults};
ghost use Rattle.sqlite.specs.FileStore.{view};
ghost use Rattle.sqlite.specs.Files.{Finds, IsBlankAs, IsOpened, file_state, image_of};
ghost use Rattle.sqlite.specs.Start.{FindsIn};
ghost use Rattle.sqlite.specs.State.{HasCleanDisk};
ghost use Rattle.sqlite.specs.WalFiles.{image_at};
ghost use Rattle.sqlite.specs.WalReads.{AreClean, IsClean, OnlyReads};
ghost use Rattle.sqlite.specs.Opening.{is_open_error};
ghost use Rattle.sqlite_std_file.specs.File.{IsFresh, file_is_usable};
ghost use Rattle.wal_damage.specs.Damage.{lost_commits};
ghost use Rattle.wal_damage.specs.Faults.{HasNotFailed};
ghost use Rattle.over_tables.specs.Refusals.{IsNotOurs};
ghost use Rattle.store_files.specs.Files.{IsNotBegun, MayHaveCommits};
ghost use Rattle.store_files.specs.Unopened.{error_of};
ghost use Rattle.store_files.specs.Wal.{FailsInGiven, IsOfLook, IsWholeWal, RefusesWal, fault_of};
ghost use Rattle.store_files.specs.Wal.{opens_none};

use crate::faults::unopened;
use crate::place::{EMPTY_LOG, has_log, is_missing, names_no_file, place_of};
use over_tables::{Cause, FileFault};
use sqlite::{Connection, Error, ErrorCode, FileFrom, FileStore, Leftover, Options};
use sqlite_disk::{Disk, Files, Start, Unknown};
use sqlite_std_file::OpenError;
use std::alloc::{AllocError, Global};
use std::hash::{BuildHasher, RandomState};
use std::io::ErrorKind;
use wal_damage::{Look, LookFault, look_at};

const NO_MEMORY: Error = Error::SqliteFailure(ErrorCode::OutOfMemory);

const CANNOT_OPEN: Error = Error::SqliteFailure(ErrorCode::CannotOpen);

/// Refuses two files that were just opened if their WAL still has durable commits after a damaged
/// frame or a damaged header: SQLite's recovery would drop them silently. It writes nothing, reads
/// the WAL once, and allocates memory for one frame.
///
/// # Errors
///
/// - `NotOurs` with the cause `DamagedWal`: the WAL has such commits.
/// - `Storage`: a read fails.
/// - `Memory`: an allocation fails.
pub fn refuse_damaged<D: Disk>(alloc: Global, files: &mut Files<D>) -> Result<(), FileFault>
    requires log_usable { IsTrue (D.Disk.is_usable files.old.log) }
    requires db_usable { IsTrue (D.Disk.is_usable files.old.db) }
    ensures whole { OnOk result (AreClean D.Disk files.new.log files.new.db
        → lost_commits (D.Disk.seen files.old.db) (D.Disk.seen files.old.log) ≡ 0) }
    ensures calm { OnOk result (HasNotFailed D.Disk files.old files.new) }
    ensures refused { IfErr result (RefusesWal D.Disk files.old files.new) }
    ensures log { OnlyReads D.Disk files.old.log files.new.log }
    ensures db { OnlyReads D.Disk files.old.db files.new.db }
{
    match look_at(alloc, files) {
        Ok(Look { lost: 0, .. }) => Ok(()),
        Ok(Look { lost: commits, .. }) => {
            let cause = Cause::DamagedWal { commits };
            Err(FileFault::NotOurs { cause })
        }
        Err(fault) => Err(fault_of(fault)),
    }
}

// Returns the fault for a WAL that couldn't be examined.
fn fault_of(fault: LookFault) -> FileFault
    ensures { result ≡ fault_of fault }
{
    match fault {
        LookFault::Failed => FileFault::Storage,
        LookFault::Memory => FileFault::Memory,
    }
}

/// Checks the two files at `path` with `refuse_damaged`, and closes them. SQLite opens neither, and
/// neither is created. Returns `Ok` if the file doesn't exist or has no WAL with frames.
///
/// # Errors
///
/// Returns the fault of `refuse_damaged`, or the reason why the two files can't be opened.
pub fn refuse_damaged_at(rt: &HostRuntime, path: &str) -> Result<(), FileFault>
    ensures { IfErr result IsOfLook }
{
    match has_both(rt, path) {
        Ok(true) => refuse_opened(rt, path),
        Ok(false) => Ok(()),
        Err(AllocError) => Err(FileFault::Memory),
    }
}

/// Returns `true` if the WAL of the file at `path` looks damaged and was written only by another
/// program. Such a file isn't refused. Returns `false` if the two files can't be opened or read.
pub fn has_suspect_wal(rt: &HostRuntime, path: &str) -> bool {
    match has_both(rt, path) {
        Ok(true) => is_suspect(rt, path),
        _ => false,
    }
}

// Returns `true` if the file at `path` exists and has a WAL with frames. Opening both then creates
// neither.
fn has_both(rt: &HostRuntime, path: &str) -> Result<bool, AllocError> {
    Ok(!is_missing(rt, path)? && has_log(rt, path)?)
}

fn refuse_opened(rt: &HostRuntime, path: &str) -> Result<(), FileFault>
    ensures { IfErr result IsOfLook }
{
    match files_at(rt, path, Unknown) {
        Ok(mut files) => refuse_damaged(rt.alloc(), &mut files),
        Err(error) => Err(unopened(error, place_of(rt, path))),
    }
}

fn is_suspect(rt: &HostRuntime, path: &str) -> bool {
    match files_at(rt, path, Unknown) {
        Ok(mut files) => match look_at(rt.alloc(), &mut files) {
            Ok(look) => look.is_suspect,
            Err(_) => false,
        },
        Err(_) => false,
    }
}

// Returns `true` if the WAL is longer than after an ordinary exit.
fn is_long<D: Disk>(log: &mut D) -> Result<bool, FileFault>
    requires { IsTrue (D.Disk.is_usable log.old) }
    ensures long { IfOk result (λ found. IsClean D.Disk log.new
        → (IsTrue found ↔ (41 < length (D.Disk.seen log.old)))) }
    ensures failed { IfErr result (λ fault. ((fault ≡ FileFault.Storage)
        × MoreFaults (D.Disk.faults log.old) (D.Disk.faults log.new))
        ⊎ (fault ≡ FileFault.Memory)) }
    ensures same { OnlyReads D.Disk log.old log.new }
{
    match log.len() {
        Ok(len) => Ok(len as u64 > EMPTY_LOG),
        Err(error) => Err(fault_of(LookFault::from(error))),
    }
}

// Checks two files with `refuse_damaged`. Returns `true` if their WAL is longer than after an
// ordinary exit, so that it may have commits.
fn examine<D: Disk>(alloc: Global, files: &mut Files<D>) -> Result<bool, FileFault>
    requires log_usable { IsTrue (D.Disk.is_usable files.old.log) }
    requires db_usable { IsTrue (D.Disk.is_usable files.old.db) }
    ensures whole { IfOk result (λ _. AreClean D.Disk files.new.log files.new.db
        → lost_commits (D.Disk.seen files.old.db) (D.Disk.seen files.old.log) ≡ 0) }
    ensures long { IfOk result (λ has_log. AreClean D.Disk files.new.log files.new.db
        → (IsTrue has_log ↔ (41 < length (D.Disk.seen files.old.log)))) }
    ensures refused { IfErr result (RefusesWal D.Disk files.old files.new) }
    ensures log { OnlyReads D.Disk files.old.log files.new.log }
    ensures db { OnlyReads D.Disk files.old.db files.new.db }
{
    match refuse_damaged(alloc, files) {
        Ok(()) => is_long(&mut files.log),
        Err(fault) => Err(fault),
    }
}

// Opens the database in the file at `path`, unless its WAL is damaged. Both files are locked from
// before the WAL is read until they are closed. The result also says whether the WAL was longer
// than after an ordinary exit.
pub(crate) fn open_whole<S: Start>(
    rt: &HostRuntime,
    path: &str,
    start: S,
) -> Result<(Connection<FileStore<FileFrom<S>>>, bool), FileFault>
    ensures memory { path.now ≡ codes ":memory:" → IsErrAnd result IsNotOurs }
    ensures opened { IfOk result (λ o. HasCleanDisk (file_state o.0) → IsOpened o.0) }
    ensures found { IfOk result (λ o. HasCleanDisk (file_state o.0)
        → FindsIn (image_at S.Start) (file_state o.0)) }
    ensures whole { IfOk result (λ o. HasCleanDisk (file_state o.0)
        → IsWholeWal (image_at S.Start)) }
    ensures log { IfOk result (λ o. HasCleanDisk (file_state o.0)
        → (IsTrue o.1 ↔ MayHaveCommits (image_at S.Start))) }
    ensures sums { IfOk result (λ o. HasCleanDisk (file_state o.0)
        → IsBlankAs false (image_at S.Start) → (view o.0.store).has_sums ≡ false) }
    ensures idle { IfOk result (λ o. o.0.in_transaction ≡ false) }
    ensures failed { IfErr result
        (IsNotBegun ⟦<FileFrom<S> as Disk>⟧ (image_at S.Start) IsFresh) }
{
    let mut files = match files_at(rt, path, start) {
        Ok(files) => files,
        Err(error) => return Err(unopened(error, place_of(rt, path))),
    };
    let has_log = match examine(rt.alloc(), &mut files) {
        Ok(has_log) => has_log,
        Err(fault) => return Err(fault),
    };
    match open_in(rt, files) {
        Ok(conn) => Ok((conn, has_log)),
        Err((error, left)) => {
            drop(left);
            Err(unopened(error, place_of(rt, path)))
        }
    }
}

// Opens the database in two files that are already open.
fn open_in<D: Disk + Drop>(
    rt: &HostRuntime,
    files: Files<D>,
) -> Result<Connection<FileStore<D>>, (Error, Option<Leftover<D>>)>
    requires log { IsTrue (D.Disk.is_usable files.log) }
    requires db { IsTrue (D.Disk.is_usable files.db) }
    ensures opened { IfOk result (λ conn. HasCleanDisk (file_state conn) → IsOpened conn) }
    ensures found { IfOk result (λ conn. HasCleanDisk (file_state conn) → Finds files conn) }
    ensures sums { IfOk result (λ conn. HasCleanDisk (file_state conn)
        → IsBlankAs false (image_of D.Disk files) → (view conn.store).has_sums ≡ false) }
    ensures idle { IfOk result (λ conn. conn.in_transaction ≡ false) }
    ensures named { IfErr result (λ e. IsTrue (is_open_error e.0)) }
    ensures none { IfErr result (λ e. e.1 ≡ None → IsTrue (opens_none e.0)) }
    ensures some { IfErr result (λ e. FailsInGiven files e.0 e.1) }
{
    let Ok(seeds) = RandomState::new(rt) else {
        return Err((CANNOT_OPEN, None));
    };
    let options = Options::new(seeds.hash_one(&0u8));
    match Connection::open_files(rt.alloc(), files, options) {
        Ok(mut conn) => {
            conn.set_clock(rt);
            Ok(conn)
        }
        Err((error, left)) => Err((error, Some(left))),
    }
}

/// Opens and locks the two files at `path`. `start` represents their contents before the call.
/// Creates a file that doesn't exist.
///
/// # Errors
///
/// Returns the error that `Connection::open_from` would return.
pub fn files_at<S: Start>(
    rt: &HostRuntime,
    path: &str,
    start: S,
) -> Result<Files<FileFrom<S>>, Error>
    ensures memory { path.now ≡ codes ":memory:" → IsErrAnd result
        (λ e. e ≡ Error.SqliteFailure ErrorCode.CannotOpen) }
    ensures log { IfOk result (λ files. IsTrue (file_is_usable S.Start files.log)) }
    ensures db { IfOk result (λ files. IsTrue (file_is_usable S.Start files.db)) }
    ensures fresh { IfOk result (λ files. IsFresh true files.log × IsFresh false files.db) }
    ensures none { IfErr result (λ e. IsTrue (opens_none e)) }
    ensures named { IfErr result (λ e. IsTrue (is_open_error e)) }
{
    if names_no_file(path) {
        return Err(CANNOT_OPEN);
    }
    match sqlite_std_file::open(rt, path, start) {
        Ok(files) => Ok(files),
        Err(error) => Err(error_of(error)),
    }
}

// Returns the error of SQLite for two files that couldn't be opened.
fn error_of(error: OpenError) -> Error
    ensures value { result ≡ error_of error }
    ensures none { IsTrue (opens_none result) }
    ensures named { IsTrue (is_open_error result) }
{
    match error {
        OpenError::OutOfMemory => NO_MEMORY,
        OpenError::Busy => Error::SqliteFailure(ErrorCode::DatabaseBusy),
        OpenError::HotJournal => CANNOT_OPEN,
        OpenError::Io(error) => match error.kind() {
            ErrorKind::OutOfMemory => NO_MEMORY,
            _ => CANNOT_OPEN,
        },
    }
}
