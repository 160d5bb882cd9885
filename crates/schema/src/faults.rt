//! Converts the errors of SQLite to faults of the store, and counts these faults.
ghost use Rattle.std.specs.Prelude.{◌≡◌};
ghost use Rattle.adoption.specs.Faults.{fault_for};
ghost use Rattle.job_facts.specs.Store.{failed_after, failed_by, full_after, full_by, with_fault};
ghost use Rattle.schema.specs.Link.{IsTranslated, IsTranslatedCommit};

use adoption::fault_of;
use job_facts::{Failed, StoreFault};
use sqlite::Error;

/// The numbers of `Device` and `Full` faults that a store has returned.
#[derive(Clone, Copy)]
pub(crate) struct Counts {
    pub(crate) failed: u64,
    pub(crate) full: u64,
}

impl Counts {
    /// Converts the result of a call to SQLite, and counts the fault if there is one.
    ///
    /// # Errors
    ///
    /// Returns the fault for the error in `answer`.
    pub(crate) fn translated<T>(&mut self, answer: Result<T, Error>) -> Result<T, StoreFault>
        ensures value { IsTranslated answer result }
        ensures failed { self.new.failed ≡ failed_after result self.old.failed }
        ensures full { self.new.full ≡ full_after result self.old.full }
    {
        match answer {
            Ok(value) => Ok(value),
            Err(error) => Err(self.counted(error)),
        }
    }

    /// Converts the result of a commit or a release, and counts the fault if there is one.
    ///
    /// # Errors
    ///
    /// Returns the fault for the error in `answer`, with the same `undone`.
    pub(crate) fn translated_commit(
        &mut self,
        answer: Result<(), Failed<Error>>,
    ) -> Result<(), Failed<StoreFault>>
        ensures value { IsTranslatedCommit answer result }
        ensures failed { self.new.failed ≡ failed_after (with_fault result) self.old.failed }
        ensures full { self.new.full ≡ full_after (with_fault result) self.old.full }
    {
        match answer {
            Ok(()) => Ok(()),
            Err(Failed { fault, undone }) => Err(Failed {
                fault: self.counted(fault),
                undone,
            }),
        }
    }

    // Returns the fault for `error`, and counts it.
    fn counted(&mut self, error: Error) -> StoreFault
        ensures value { result ≡ fault_for error }
        ensures failed { self.new.failed ≡ failed_by result self.old.failed }
        ensures full { self.new.full ≡ full_by result self.old.full }
    {
        let fault = fault_of(error);
        match fault {
            StoreFault::Memory => (),
            StoreFault::Device => self.failed = self.failed.saturating_add(1),
            StoreFault::Full => self.full = self.full.saturating_add(1),
        }
        fault
    }
}
