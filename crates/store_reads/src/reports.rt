//! Reads the record lines of a batch, and the account of a product's blanks.
ghost use Rattle.std.specs.Prelude.{false, ◌≡◌, ◌<◌, ◌^◌};
ghost use Rattle.sqlite.specs.Held.{state};
ghost use Rattle.job_facts.specs.Accounts.{blank_totals, record_lines};
ghost use Rattle.store_reads.specs.Lines.{lines_with};
ghost use Rattle.store_reads.specs.ReadsContents.{FindsContents};

use crate::lines::lines_for;
use crate::sums::totals_of_rows;
use job_facts::{BlankTotals, RecordLine};
use row_reads::{batch_id, batches_of, good_sessions, lots_of, records_of};
use sqlite::{Alter, Connection, Error};
use store_data::Name;

// Returns the lines of the records of the batch with the id `id`, in file order.
fn lines_with<S: Alter>(conn: &mut Connection<S>, id: u64) -> Result<Vec<RecordLine>, Error>
    requires idle { conn.old.in_transaction ≡ false }
    requires id { id < 2 ^ 63 }
    ensures { FindsContents (state S.Store conn.old) (state S.Store conn.new) result
        (λ c lines. lines.items ≡ lines_with c.facts id) }
{
    row_laws::records_of_batches();
    let records = records_of(conn, id)?;
    let good = good_sessions(conn, id)?;
    let alloc = *records.allocator();
    lines_for(alloc, records.as_slice(), good.as_slice())
}

/// Returns a line for each record of the batch `batch`, in file order. The list is empty if the
/// batch doesn't exist.
pub fn record_lines<S: Alter>(
    conn: &mut Connection<S>,
    batch: &Name,
) -> Result<Vec<RecordLine>, Error>
    requires { conn.old.in_transaction ≡ false }
    ensures { FindsContents (state S.Store conn.old) (state S.Store conn.new) result
        (λ c lines. lines.items ≡ record_lines c.facts batch.now) }
{
    row_laws::batches_by_name();
    row_laws::lines_by_rows();
    // No batch has the id 0, so a batch that doesn't exist has no records.
    let id = batch_id(conn, batch)?.unwrap_or(0);
    lines_with(conn, id)
}

/// Returns the counters of the blanks of the product `product`.
pub fn blank_totals<S: Alter>(
    conn: &mut Connection<S>,
    product: &Name,
) -> Result<BlankTotals, Error>
    requires { conn.old.in_transaction ≡ false }
    ensures { FindsContents (state S.Store conn.old) (state S.Store conn.new) result
        (λ c answer. answer ≡ blank_totals c.facts product.now) }
{
    row_laws::blanks_by_rows();
    let lots = lots_of(conn, product)?;
    let heads = batches_of(conn, product)?;
    totals_of_rows(lots.as_slice(), heads.as_slice())
}
