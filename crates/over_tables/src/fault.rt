//! The faults of opening a database file.
use crate::cause::Cause;
use examination::Damage;
use job_facts::StoreFault;
use schema::OpenFault;
use std::alloc::AllocError;

/// The number of the refusal of a file that SQLite can't open, or whose tables don't have the form
/// of any schema version.
pub const NOT_OURS: u16 = 81;

/// The number of the refusal of a file whose rows don't represent sound contents.
pub const DAMAGED: u16 = 82;

/// The reason why a database file isn't opened.
#[derive(Debug, Drop, PartialEq, Eq)]
pub enum FileFault {
    /// The file doesn't exist, SQLite can't open it, or its tables don't have the form of any
    /// schema version: refusal 81.
    NotOurs { cause: Cause },
    /// The tables have the form of a schema version, but the rows don't represent sound contents:
    /// refusal 82.
    Damaged { cause: Damage },
    /// The device of the file failed or is full.
    Storage,
    /// An allocation failed.
    Memory,
}

impl From<StoreFault> for FileFault {
    ghost use Rattle.std.specs.Prelude.{◌≡◌};
    ghost use Rattle.over_tables.specs.Faults.{of_store};

    ghost from_gives = { λ cause fault. fault ≡ of_store cause };

    fn from(cause: StoreFault) -> FileFault {
        match cause {
            StoreFault::Memory => FileFault::Memory,
            StoreFault::Device | StoreFault::Full => FileFault::Storage,
        }
    }
}

impl From<AllocError> for FileFault {
    ghost use Rattle.std.specs.Prelude.{◌≡◌};
    ghost use Rattle.over_tables.specs.declared.fault.FileFault.TheVariants.{Memory};

    ghost from_gives = { λ _ fault. fault ≡ Memory };

    fn from(_error: AllocError) -> FileFault {
        FileFault::Memory
    }
}

// A database was empty before a store was created in it. If it isn't empty then, the device has
// failed.
impl From<OpenFault> for FileFault {
    ghost use Rattle.std.specs.Prelude.{◌≡◌};
    ghost use Rattle.over_tables.specs.Faults.{of_open};

    ghost from_gives = { λ cause fault. fault ≡ of_open cause };

    fn from(cause: OpenFault) -> FileFault {
        match cause {
            OpenFault::NotEmpty => FileFault::Storage,
            OpenFault::NotOurs { difference } => FileFault::NotOurs {
                cause: Cause::Tables { difference },
            },
            OpenFault::Damaged { damage } => FileFault::Damaged { cause: damage },
            OpenFault::Store { fault } => FileFault::from(fault),
        }
    }
}
