//! The interface of a store that can be closed and opened again.
use crate::store::{JobStore, StoreFault};
use std::alloc::Global;

/// A store that can be closed and opened again.
pub trait Reopen: JobStore {
    ghost use Rattle.std.specs.Prelude.{IfOk};
    ghost use Rattle.job_facts.specs.Reopening.{IsAnew, Reopens};
    ghost use Rattle.job_facts.specs.Store.{IsHonest};

    /// No fault has made the store unusable.
    ghost usable: { Self → Type 0 };

    /// Closes the store and opens it again. If no fault had made the store unusable (`usable`), the
    /// contents are the same, and an open after a crash then finds exactly these contents.
    ///
    /// # Errors
    ///
    /// - `Memory` if an allocation fails.
    /// - `Device` if the device fails, or the store can't be opened again.
    /// - `Full` if the device is full.
    fn reopen(self, alloc: Global) -> Result<Self, StoreFault>
        ensures anew { IfOk result (λ again. IsAnew (Self.state again)) }
        ensures holds { IfOk result
            (λ again. usable self → Reopens (Self.state self) (Self.state again)) }
        ensures open { IfOk result (λ again. IsHonest (Self.state again) → usable again) };
}
