//! The store of a server, which is closed when the server exits.
ghost use Rattle.std.specs.Prelude.{◌≡◌, false, IfErr, OnOk};
ghost use Rattle.schema.specs.Closing.{FailsToFinish, LeavesWholeFile};

use crate::store::SqlStore;
use adoption::fault_of;
use job_facts::{FaultCounts, ServerStore, StoreFault};
use sql_base::laws;
use sqlite::{Connection, FileStore, MemStore};
use sqlite_disk::Disk;

// Copies the WAL to the database file, and closes both files. If this fails, both files are closed
// anyway.
fn close_files<D: Disk + Drop>(conn: Connection<FileStore<D>>) -> Result<(), StoreFault>
    requires { conn.in_transaction ≡ false }
    ensures closed { OnOk result (LeavesWholeFile conn) }
    ensures fault { IfErr result (FailsToFinish conn) }
{
    laws::is_committed(&conn);
    match conn.close_files() {
        Ok(_) => Ok(()),
        Err((error, store)) => {
            drop(store.close());
            Err(fault_of(error))
        }
    }
}

impl<D: Disk + Drop> ServerStore for SqlStore<FileStore<D>> {
    ghost use Rattle.std.specs.Prelude.{IfErr, OnOk};
    ghost use Rattle.schema.specs.Closing.{FailsToFinish, LeavesWholeFile};
    ghost use Rattle.schema.specs.Stores.{connection};

    ghost closed = { λ store. LeavesWholeFile (connection store) };

    ghost unclosed = { λ store fault. FailsToFinish (connection store) fault };

    fn fault_counts(&self) -> FaultCounts {
        self.fault_counts_of()
    }

    fn reply_count(&mut self) -> Result<u64, StoreFault> {
        self.count_replies()
    }

    fn finish(self) -> Result<(), StoreFault>
        ensures closed { OnOk result (LeavesWholeFile (connection self)) }
        ensures fault { IfErr result (FailsToFinish (connection self)) }
    {
        close_files(self.close())
    }
}

// A database in memory has no file, so nothing needs to be closed.
impl ServerStore for SqlStore<MemStore> {
    ghost use Rattle.std.specs.Prelude.{⊤};

    ghost closed = { λ _. ⊤ };

    ghost unclosed = { λ _ _. ⊥ };

    fn fault_counts(&self) -> FaultCounts {
        self.fault_counts_of()
    }

    fn reply_count(&mut self) -> Result<u64, StoreFault> {
        self.count_replies()
    }

    fn finish(self) -> Result<(), StoreFault> {
        Ok(())
    }
}
