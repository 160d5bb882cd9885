//! Sets the bytes of batches, in an open transaction. A crash before its commit leaves no trace of
//! them.
ghost use Rattle.std.specs.Prelude.{⊤};
ghost use Rattle.sqlite.specs.Held.{state};
ghost use Rattle.sql_base.specs.Unchanged.{LeavesNoTraceWithCause};
ghost use Rattle.sql_rows.specs.Image.{Moves};
ghost use Rattle.sql_rows.specs.Many.{WritesMany};
ghost use Rattle.remaking.specs.Rows.{with_bytes, with_each};

use crate::putting::fit;
use row_writes::set_raw;
use sql_tables::{Runs, run_each};
use sqlite::{Alter, Error, Transaction};
use table_rows::StoredBatch;

// The statements that set the bytes of existing batches.
struct Bytes;

impl Runs<StoredBatch> for Bytes {
    ghost makes = { λ batch. Moves (with_bytes batch) };

    ghost explains = { ⊤ };

    fn run<S: Alter>(tx: &mut Transaction<'_, S>, batch: &StoredBatch) -> Result<usize, Error> {
        if !fit(batch.id, 0, 0, 0) {
            return Err(Error::InvalidQuery);
        }
        set_raw(tx, batch.id, batch.raw.as_slice())
    }
}

/// Sets the bytes of existing batches, one after the other, up to the first error. An id of 2^63 or
/// higher is an error.
pub(crate) fn set_bytes<S: Alter>(
    tx: &mut Transaction<'_, S>,
    batches: &[StoredBatch],
) -> Result<(), Error>
    ensures wrote { WritesMany (with_each with_bytes batches.now)
        (state S.Store tx.old.conn.now) (state S.Store tx.new.conn.now) result }
    ensures no_trace { LeavesNoTraceWithCause S.Store tx.old.conn tx.new.conn result }
{
    run_each::<Bytes, StoredBatch, S>(tx, batches)
}
