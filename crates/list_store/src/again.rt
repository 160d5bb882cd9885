//! Reopens the store. Nothing was closed, so it is returned unchanged.
use crate::store::ListStore;
use job_facts::{Reopen, StoreFault};
use std::alloc::Global;

impl Reopen for ListStore {
    ghost use Rattle.std.specs.Prelude.{⊤};

    ghost usable = { λ _. ⊤ };

    fn reopen(self, _alloc: Global) -> Result<ListStore, StoreFault> {
        Ok(self)
    }
}
