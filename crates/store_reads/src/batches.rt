//! Reads a batch, its size and its counters.
ghost use Rattle.std.specs.Prelude.{false, IsTrue, ◌<◌, ◌^◌, ◌≡◌, ◌↔◌};
ghost use Rattle.sqlite.specs.Held.{state};
ghost use Rattle.job_facts.specs.Accounts.{batch_totals};
ghost use Rattle.job_facts.specs.Rows.{batch_has, batch_row_of, batch_size_of};
ghost use Rattle.job_facts.specs.States.{is_batch_finished};
ghost use Rattle.store_reads.specs.Heads.{is_over, totals_in};
ghost use Rattle.store_reads.specs.ReadsContents.{FindsContents};

use job_facts::{BatchRow, BatchSize, BatchTotals};
use row_reads::{BatchHead, batch_by_name, batch_head, grouping_count};
use sqlite::{Alter, Connection, Error};
use store_data::Name;

// ---- parts of rows

fn totals_of(found: Option<BatchHead>) -> BatchTotals
    ensures { result ≡ totals_in found }
{
    match found {
        None => BatchTotals {
            records: 0,
            waiting: 0,
            running: 0,
            failed: 0,
            withdrawn: 0,
            good: 0,
            sessions: 0,
            spoiled: 0,
        },
        Some(head) => head.totals,
    }
}

fn is_over(totals: BatchTotals) -> bool
    ensures { result ≡ is_over totals }
{
    totals.waiting == 0 && totals.running == 0 && totals.failed == 0
}

// ---- batches

/// Returns the batch with the name `name`.
pub fn batch<S: Alter>(conn: &mut Connection<S>, name: &Name) -> Result<Option<BatchRow>, Error>
    requires { conn.old.in_transaction ≡ false }
    ensures { FindsContents (state S.Store conn.old) (state S.Store conn.new) result
        (λ c answer. answer ≡ batch_row_of c.facts name.now) }
{
    row_laws::batches_by_name();
    row_laws::batches_by_rows();
    let found = batch_by_name(conn, name)?;
    Ok(found.map(|stored| BatchRow {
        product: stored.product,
        is_closed: stored.is_closed,
    }))
}

// The numbers of rows and of records in a `BatchSize` are below this limit.
const SIZE_END: u64 = 1 << 32;

// Returns `true` if a `BatchSize` can contain these numbers.
fn fits(rows: u64, records: u64) -> bool
    ensures { IsTrue result ↔ ((rows < 2 ^ 32) × (records < 2 ^ 32)) }
{
    rows < SIZE_END && records < SIZE_END
}

/// Returns the numbers of rows and records of the batch `name`.
pub fn batch_size<S: Alter>(
    conn: &mut Connection<S>,
    name: &Name,
) -> Result<Option<BatchSize>, Error>
    requires { conn.old.in_transaction ≡ false }
    ensures { FindsContents (state S.Store conn.old) (state S.Store conn.new) result
        (λ c answer. answer ≡ batch_size_of c.facts name.now) }
{
    row_laws::batches_by_name();
    row_laws::batches_by_rows();
    let Some(head) = batch_head(conn, name)? else {
        return Ok(None);
    };
    let rows = grouping_count(conn, head.id)?;
    if !fits(rows, head.totals.records) {
        return Err(Error::InvalidQuery);
    }
    Ok(Some(BatchSize {
        rows: rows as u32,
        records: head.totals.records as u32,
    }))
}

/// Returns `true` if the batch `name` was imported from exactly the bytes `raw`.
pub fn batch_has<S: Alter>(conn: &mut Connection<S>, name: &Name, raw: &[u8]) -> Result<bool, Error>
    requires { conn.old.in_transaction ≡ false }
    ensures { FindsContents (state S.Store conn.old) (state S.Store conn.new) result
        (λ c answer. answer ≡ batch_has c.facts name.now raw.now) }
{
    row_laws::batches_by_rows();
    row_reads::batch_has(conn, name, raw)
}

/// Returns `true` if every record of the batch `batch` is good or withdrawn.
pub fn is_finished<S: Alter>(conn: &mut Connection<S>, batch: &Name) -> Result<bool, Error>
    requires { conn.old.in_transaction ≡ false }
    ensures { FindsContents (state S.Store conn.old) (state S.Store conn.new) result
        (λ c answer. answer ≡ is_batch_finished c.facts batch.now) }
{
    row_laws::totals_by_rows();
    let totals = batch_totals(conn, batch)?;
    Ok(is_over(totals))
}

/// Returns the counters of the batch `batch`, which are all 0 if the batch doesn't exist.
pub fn batch_totals<S: Alter>(conn: &mut Connection<S>, batch: &Name) -> Result<BatchTotals, Error>
    requires { conn.old.in_transaction ≡ false }
    ensures { FindsContents (state S.Store conn.old) (state S.Store conn.new) result
        (λ c answer. answer ≡ batch_totals c.facts batch.now) }
{
    row_laws::batches_by_name();
    row_laws::totals_by_rows();
    let found = batch_head(conn, batch)?;
    Ok(totals_of(found))
}
