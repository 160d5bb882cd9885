//! Opens a database without writing to its database file.
ghost use Rattle.std.specs.Prelude.{◌≡◌, false, IfErr, IfOk, IsTrue, MatchOption};
ghost use Rattle.sqlite.specs.Files.{IsOpened, file_state};
ghost use Rattle.sqlite.specs.State.{HasCleanDisk};
ghost use Rattle.sqlite.specs.WalFiles.{image_at};
ghost use Rattle.sqlite.specs.WalReads.{AreClean};
ghost use Rattle.sqlite_disk.specs.Disk.{Only};
ghost use Rattle.sqlite_std_file.specs.File.{IsFresh};
ghost use Rattle.store_files.specs.Wal.{opens_none};
ghost use Rattle.book_file.specs.Files.{AreOnlyRead, FailsToOpen, IsIn};
ghost use Rattle.book_file.specs.Left.{unguarded};

use crate::guarded::Guarded;
use sqlite::{Connection, Error, ErrorCode, FileFrom, FileStore, Options};
use sqlite_disk::{Disk, Files, Start};
use std::hash::{BuildHasher, RandomState};

/// A guarded file that was opened at a path.
pub(crate) type GuardedFile<S> = Guarded<FileFrom<S>, S>;

const CANNOT_OPEN: Error = Error::SqliteFailure(ErrorCode::CannotOpen);

/// Opens the database in two files that were just opened and only read since.
///
/// # Errors
///
/// Returns the error of SQLite, with the two files if SQLite got them.
pub(crate) fn open_guarded<S: Start>(
    rt: &HostRuntime,
    files: Files<FileFrom<S>>,
) -> Result<Connection<FileStore<GuardedFile<S>>>, (Error, Option<Files<GuardedFile<S>>>)>
    requires { AreOnlyRead ⟦<FileFrom<S> as Disk>⟧ IsFresh (image_at S.Start) files }
    ensures idle { IfOk result (λ conn. conn.in_transaction ≡ false) }
    ensures opened { IfOk result (λ conn. HasCleanDisk (file_state conn) → IsOpened conn) }
    ensures found { IfOk result (λ conn. HasCleanDisk (file_state conn)
        → IsIn (image_at S.Start) (file_state conn).now) }
    ensures clean { IfOk result (λ conn. HasCleanDisk (file_state conn)
        → AreClean ⟦<FileFrom<S> as Disk>⟧ files.log files.db) }
    ensures failed { IfErr result (λ e. MatchOption e.1 (IsTrue (opens_none e.0))
        (FailsToOpen ⟦<GuardedFile<S> as Disk>⟧ IsFresh e.0)) }
{
    let Ok(seeds) = RandomState::new(rt) else {
        return Err((CANNOT_OPEN, None));
    };
    let options = Options::new(seeds.hash_one(&0u8));
    match Connection::open_files(rt.alloc(), guarded(files), options) {
        Ok(conn) => Ok(conn),
        Err((error, left)) => Err((error, Some(left.into_files()))),
    }
}

// Guards two files.
fn guarded<D: Disk, S: Start>(files: Files<D>) -> Files<Guarded<D, S>>
    requires { Only S.Start.db (D.Disk.may_leave files.db) }
    ensures { unguarded result ≡ files }
{
    Files {
        log: Guarded::new(files.log, true),
        db: Guarded::new(files.db, false),
    }
}
