//! The reasons why a database isn't opened.
ghost use Rattle.std.specs.Prelude.{◌≡◌};
ghost use Rattle.adoption.specs.Faults.{fault_for};

use examination::{Damage, Difference};
use job_facts::StoreFault;
use sqlite::{Error, ErrorCode};

/// The reason why no store was opened over a database, with the cause of a refusal.
#[derive(Debug, Drop, PartialEq, Eq)]
pub enum OpenFault {
    /// A new store needs an empty database, and the database isn't empty (refusal 81).
    NotEmpty,
    /// The tables aren't the tables of any schema version (refusal 81).
    NotOurs { difference: Difference },
    /// The tables are the tables of a schema version, but the rows aren't the rows of sound
    /// contents (refusal 82).
    Damaged { damage: Damage },
    /// A fault of the store itself.
    Store { fault: StoreFault },
}

impl From<Error> for OpenFault {
    ghost use Rattle.std.specs.Prelude.{◌≡◌};
    ghost use Rattle.adoption.specs.declared.faults.OpenFault.TheVariants as fault;
    ghost use Rattle.adoption.specs.Faults.{fault_for};

    ghost from_gives = { λ error e. e ≡ fault.Store (fault_for error) };

    fn from(error: Error) -> OpenFault {
        OpenFault::Store {
            fault: fault_of(error),
        }
    }
}

/// Returns the fault of a store for an error of SQLite. SQLite accepts all rows of sound contents,
/// so an error other than out of memory or a full disk is a fault of the device.
pub fn fault_of(error: Error) -> StoreFault
    ensures { result ≡ fault_for error }
{
    match error {
        Error::SqliteFailure(ErrorCode::OutOfMemory) => StoreFault::Memory,
        Error::SqliteFailure(ErrorCode::DiskFull) => StoreFault::Full,
        _ => StoreFault::Device,
    }
}
