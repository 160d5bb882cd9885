//! Finds the fault for a database file that isn't opened.
ghost use Rattle.std.specs.Prelude.{◌≡◌};
ghost use Rattle.store_files.specs.Unopened.{absent, cannot_open, of_opening};

use crate::place::Place;
use over_tables::{Cause, FileFault};
use sqlite::{Error, ErrorCode};
use std::alloc::AllocError;

// Returns the refusal of a file that doesn't exist and must not be created.
pub(crate) fn absent(place: Place) -> FileFault
    ensures { result ≡ absent place }
{
    let cause = match place {
        Place::NoFolder => Cause::NoFolder,
        _ => Cause::NoFile,
    };
    FileFault::NotOurs { cause }
}

// Returns the reason why SQLite can't open a file at `place`. If the file doesn't exist, it can't
// be created. If the file itself can be opened, its WAL can't.
fn cannot_open(place: Place) -> Cause
    ensures { result ≡ cannot_open place }
{
    match place {
        Place::NoFolder => Cause::NoFolder,
        Place::Folder => Cause::Folder,
        Place::Special => Cause::Special,
        Place::Journal => Cause::Journal,
        Place::NoFile | Place::NoRight | Place::File { is_sqlite: _ } => Cause::NoRight,
        Place::Unclear => Cause::CannotOpen,
    }
}

/// Returns the fault for a file that SQLite didn't open because of `error`. `place` is the result
/// of `place_of` for its path. If an allocation failed there, the result is `Memory`, unless the
/// fault doesn't depend on `place`.
pub fn unopened(error: Error, place: Result<Place, AllocError>) -> FileFault
    ensures { result ≡ of_opening error place }
{
    let cause = match (error, place) {
        (Error::SqliteFailure(ErrorCode::OutOfMemory), _) => return FileFault::Memory,
        (
            Error::SqliteFailure(
                ErrorCode::SystemIoFailure | ErrorCode::DiskFull | ErrorCode::Closed,
            ),
            _,
        ) => return FileFault::Storage,
        (Error::SqliteFailure(ErrorCode::DatabaseBusy), _) => Cause::InUse,
        (_, Err(AllocError)) => return FileFault::Memory,
        (Error::SqliteFailure(ErrorCode::CannotOpen), Ok(place)) => cannot_open(place),
        (_, Ok(Place::File { is_sqlite: false })) => Cause::NotSqlite,
        (Error::SqliteFailure(ErrorCode::DatabaseCorrupt), Ok(_)) => Cause::Corrupt,
        (_, Ok(_)) => Cause::Invalid,
    };
    FileFault::NotOurs { cause }
}
