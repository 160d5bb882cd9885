//! The interface of a store that a server uses, and closes at the end.
use crate::store::{JobStore, StoreFault};

/// The number of faults that a store has returned. At the maximum of `u64` a count no longer
/// increases.
#[derive(Clone, Copy, Debug, PartialEq, Eq)]
pub struct FaultCounts {
    /// The number of `Device` faults.
    pub failed: u64,
    /// The number of `Full` faults.
    pub full: u64,
}

/// A store that a server uses, and closes at the end. It counts its faults and its kept replies.
pub trait ServerStore: JobStore {
    ghost use Rattle.std.specs.Prelude.{◌≡◌, IfErr, OnOk, length};
    ghost use Rattle.job_facts.specs.Store.{LeavesContents, Reads};
    ghost use Rattle.job_facts.specs.Reopening.{counts_of};
    ghost use Rattle.job_facts.specs.declared.store.StoreFault.{StoreFault as Fault};

    /// The condition that is true of a store after it was closed without a fault.
    ghost closed: { Self → Type 0 };

    /// The condition under which the close of a store may return a fault.
    ghost unclosed: { Self → Fault → Type 0 };

    /// Returns the numbers of faults since the store was opened.
    fn fault_counts(&self) -> FaultCounts
        ensures { result ≡ counts_of (Self.state self.now) };

    /// Returns the number of kept replies.
    fn reply_count(&mut self) -> Result<u64, StoreFault>
        ensures value { Reads (Self.state self.old) (Self.state self.new) result
            (λ c answer. answer ≡ length c.kept) }
        ensures leaves { LeavesContents (Self.state self.old) (Self.state self.new) result };

    /// Closes the store. After an error, everything committed before is still stored.
    ///
    /// A caller that works with any store can show that the store is closed (`closed`) only if the
    /// result is `Ok`.
    ///
    /// # Errors
    ///
    /// - `Memory` if an allocation fails.
    /// - `Device` if the device fails.
    /// - `Full` if the device is full.
    fn finish(self) -> Result<(), StoreFault>
        ensures closed { OnOk result (closed self) }
        ensures fault { IfErr result (λ fault. unclosed self fault) };
}
