//! Closes a store over SQLite, and opens its database again.
//!
//! If this fails, no clause says why, because the store no longer exists.
use crate::store::SqlStore;
use adoption::OpenFault;
use job_facts::{Reopen, StoreFault};
use sqlite::Alter;
use std::alloc::Global;

impl<S: Alter + Drop> Reopen for SqlStore<S> {
    ghost use Rattle.std.specs.Prelude.{IsTrue};
    ghost use Rattle.sqlite.specs.Held.{state};
    ghost use Rattle.schema.specs.Stores.{connection};

    ghost usable = { λ store. IsTrue (state S.Store (connection store)).is_open };

    fn reopen(self, alloc: Global) -> Result<SqlStore<S>, StoreFault> {
        table_reads::laws::our_rows_are_an_image();
        match SqlStore::adopt(alloc, self.close()) {
            Ok(store) => Ok(store),
            Err((_, OpenFault::Store { fault })) => Err(fault),
            Err(_) => Err(StoreFault::Device),
        }
    }
}
