//! The faults of a worked example.
use std::alloc::{AllocError, AllocFailed, Global};

/// A reason why a case fails.
#[derive(Debug, Drop)]
pub enum CaseFault {
    /// The output of a run differs from the expected output.
    Differs {
        /// The line of the file with the input.
        line: u64,
        /// The name of the run.
        way: &'static str,
        /// The name of the store.
        store: &'static str,
        wanted: String,
        came: String,
    },
    /// A line is malformed.
    Form {
        line: u64,
    },
    /// An allocation failed, or a call failed without a cause, as if an allocation had failed.
    Memory,
}

impl From<AllocError> for CaseFault {
    fn from(_error: AllocError) -> CaseFault {
        CaseFault::Memory
    }
}

impl<T: Drop> From<AllocFailed<T>> for CaseFault {
    fn from(_error: AllocFailed<T>) -> CaseFault {
        CaseFault::Memory
    }
}

/// The name of the store in a run without a store.
pub const NO_STORE: &str = "no store";

/// Checks that two byte strings are equal.
pub fn check_bytes(
    alloc: Global,
    line: u64,
    way: &'static str,
    wanted: &[u8],
    came: &[u8],
) -> Result<(), CaseFault> {
    if wanted == came {
        return Ok(());
    }
    Err(CaseFault::Differs {
        line,
        way,
        store: NO_STORE,
        wanted: String::from_utf8_lossy(alloc, wanted)?,
        came: String::from_utf8_lossy(alloc, came)?,
    })
}
