//! The statements that read the table `batch`.
ghost use Rattle.std.specs.Prelude.{◌≡◌, ◌<◌, ◌^◌, false, filter, find, map, option_map};
ghost use Rattle.std.specs.Prelude.{IfOk, IfSome, IsOk, IsPermutation};
ghost use Rattle.std.specs.List.{list_any};
ghost use Rattle.sqlite.specs.Held.{state};
ghost use Rattle.row_reads.specs.Decoding.{batch_at_in, head_in, totals_in};
ghost use Rattle.row_reads.specs.Extremes.{IsGreatest};
ghost use Rattle.row_reads.specs.Readable.{AreTotalsAnswer, FailsForMemory, IsHeadAnswer};
ghost use Rattle.row_reads.specs.Readable.{IsBatchAnswer};
ghost use Rattle.row_reads.specs.Reads.{FindsRows};
ghost use Rattle.row_reads.specs.RowValues.{AreCounts, IsBatchAt, IsHead, batch_at, head_of};
ghost use Rattle.table_rows.specs.Keys.{is_batch, is_batch_for, is_batch_named, is_batch_with};
ghost use Rattle.table_rows.specs.Tables.{PassesOnce, StoredBatch};

use crate::answered::{Answered, all_of, one_of};
use crate::values::{first_number, flag_at, has_rows, long_at, name_at, number_at};
use job_facts::BatchTotals;
use sql_base::{int, rows_of};
use sqlite::types::ValueRef;
use sqlite::{Alter, Connection, Error, Row};
use store_data::Name;

/// A batch without the bytes of its file and without its counters.
#[derive(Clone, Copy)]
pub struct BatchAt {
    /// The id of the batch.
    pub id: u64,
    /// The name of the product.
    pub product: Name,
    /// `true` if the batch is closed.
    pub is_closed: bool,
}

/// A batch without the bytes of its file.
#[derive(Clone, Copy)]
pub struct BatchHead {
    /// The id of the batch.
    pub id: u64,
    /// The name of the product.
    pub product: Name,
    /// `true` if the batch is closed.
    pub is_closed: bool,
    /// The counters of the batch.
    pub totals: BatchTotals,
}

// ---- rows

// Reads the counters in columns 3 to 9. The counters of records must be below 2^32, so that their
// sum can't overflow.
fn totals_in(row: &Row) -> Result<BatchTotals, Error>
    ensures value { IfOk result (λ totals. totals ≡ totals_in row.now) }
    ensures ranged { IfOk result AreCounts }
    ensures total { AreTotalsAnswer row.now → IsOk result }
{
    let waiting = long_at(row, 3)?;
    let running = long_at(row, 4)?;
    let failed = long_at(row, 5)?;
    let withdrawn = long_at(row, 6)?;
    let good = long_at(row, 7)?;
    let sessions = number_at(row, 8)?;
    let spoiled = number_at(row, 9)?;
    Ok(BatchTotals {
        records: u64::from(waiting)
            + u64::from(running)
            + u64::from(failed)
            + u64::from(withdrawn)
            + u64::from(good),
        waiting: u64::from(waiting),
        running: u64::from(running),
        failed: u64::from(failed),
        withdrawn: u64::from(withdrawn),
        good: u64::from(good),
        sessions,
        spoiled,
    })
}

impl Answered for BatchHead {
    ghost value = { head_in };

    ghost fits = { IsHead };

    ghost readable = { IsHeadAnswer };

    fn read(row: &Row) -> Result<BatchHead, Error> {
        Ok(BatchHead {
            id: number_at(row, 0)?,
            product: name_at(row, 1)?,
            is_closed: flag_at(row, 2)?,
            totals: totals_in(row)?,
        })
    }
}

impl Answered for BatchAt {
    ghost value = { batch_at_in };

    ghost fits = { IsBatchAt };

    ghost readable = { IsBatchAnswer };

    fn read(row: &Row) -> Result<BatchAt, Error> {
        Ok(BatchAt {
            id: number_at(row, 0)?,
            product: name_at(row, 1)?,
            is_closed: flag_at(row, 2)?,
        })
    }
}

// ---- queries

/// Returns the id of the batch with the name `name`.
pub fn batch_id<S: Alter>(conn: &mut Connection<S>, name: &Name) -> Result<Option<u64>, Error>
    requires { conn.old.in_transaction ≡ false }
    ensures finds { FindsRows (state S.Store conn.old) (state S.Store conn.new) result
        (λ t found. PassesOnce (is_batch_named name.now) t.batches
        → found
        ≡ option_map (λ (b : StoredBatch). b.id) (find (is_batch_named name.now) t.batches)) }
    ensures ranged { IfOk result (λ found. IfSome found (λ id. id < 2 ^ 63)) }
{
    let sql = "SELECT id FROM batch WHERE name = ?1";
    one_of(conn, sql, &[ValueRef::Text(name.bytes())])
}

/// Returns the name of the batch with the id `id`.
///
/// If the condition were only `id = ?1`, SQLite would read the whole row, including the bytes of
/// the batch file. The condition is written so that SQLite uses the index on `id` and `name`
/// instead.
pub fn batch_name<S: Alter>(conn: &mut Connection<S>, id: u64) -> Result<Option<Name>, Error>
    requires idle { conn.old.in_transaction ≡ false }
    requires id { id < 2 ^ 63 }
    ensures { FindsRows (state S.Store conn.old) (state S.Store conn.new) result
        (λ t found. PassesOnce (is_batch id) t.batches
        → found ≡ option_map (λ (b : StoredBatch). b.name) (find (is_batch id) t.batches)) }
{
    let sql = "SELECT id, name FROM batch WHERE ?1 <= id AND (id = ?1) = 1 ORDER BY id LIMIT 1";
    one_of(conn, sql, &[int(id)])
}

/// Returns the batch with the name `name`, without the bytes of its file and without its counters.
/// All columns of the result are in an index, so SQLite doesn't read the bytes.
pub fn batch_by_name<S: Alter>(
    conn: &mut Connection<S>,
    name: &Name,
) -> Result<Option<BatchAt>, Error>
    requires { conn.old.in_transaction ≡ false }
    ensures finds { FindsRows (state S.Store conn.old) (state S.Store conn.new) result
        (λ t found. PassesOnce (is_batch_named name.now) t.batches
        → found ≡ option_map batch_at (find (is_batch_named name.now) t.batches)) }
    ensures ranged { IfOk result (λ found. IfSome found IsBatchAt) }
{
    let sql = "SELECT id, product, closed FROM batch WHERE name = ?1";
    one_of(conn, sql, &[ValueRef::Text(name.bytes())])
}

/// Returns the batch with the name `name`, without the bytes of its file.
pub fn batch_head<S: Alter>(
    conn: &mut Connection<S>,
    name: &Name,
) -> Result<Option<BatchHead>, Error>
    requires { conn.old.in_transaction ≡ false }
    ensures finds { FindsRows (state S.Store conn.old) (state S.Store conn.new) result
        (λ t found. PassesOnce (is_batch_named name.now) t.batches
        → found ≡ option_map head_of (find (is_batch_named name.now) t.batches)) }
    ensures ranged { IfOk result (λ found. IfSome found IsHead) }
{
    let sql = "SELECT id, product, closed, waiting, running, failed, withdrawn, good, sessions, \
        spoiled FROM batch WHERE name = ?1";
    one_of(conn, sql, &[ValueRef::Text(name.bytes())])
}

/// Returns `true` if the batch `name` was imported from exactly the bytes `raw`.
pub fn batch_has<S: Alter>(conn: &mut Connection<S>, name: &Name, raw: &[u8]) -> Result<bool, Error>
    requires { conn.old.in_transaction ≡ false }
    ensures { FindsRows (state S.Store conn.old) (state S.Store conn.new) result
        (λ t has. has ≡ list_any (is_batch_with name.now raw.now) t.batches) }
{
    let rows = rows_of(
        conn,
        "SELECT id FROM batch WHERE name = ?1 AND raw = ?2",
        &[ValueRef::Text(name.bytes()), ValueRef::Blob(raw)],
    )?;
    Ok(has_rows(rows.as_slice()))
}

/// Returns the batches of the product `product`, in any order and without the bytes of their files.
pub fn batches_of<S: Alter>(
    conn: &mut Connection<S>,
    product: &Name,
) -> Result<Vec<BatchHead>, Error>
    requires { conn.old.in_transaction ≡ false }
    ensures { FindsRows (state S.Store conn.old) (state S.Store conn.new) result
        (λ t heads.
        IsPermutation (map head_of (filter (is_batch_for product.now) t.batches)) heads.items) }
{
    let sql = "SELECT id, product, closed, waiting, running, failed, withdrawn, good, sessions, \
        spoiled FROM batch WHERE product = ?1";
    all_of(conn, sql, &[ValueRef::Text(product.bytes())])
}

/// Returns the highest id of a batch, or 0 if no batch exists.
pub fn last_batch<S: Alter>(conn: &mut Connection<S>) -> Result<u64, Error>
    requires { conn.old.in_transaction ≡ false }
    ensures finds { FindsRows (state S.Store conn.old) (state S.Store conn.new) result
        (λ t id. IsGreatest (map (λ (b : StoredBatch). b.id) t.batches) id) }
    ensures ranged { IfOk result (λ id. id < 2 ^ 63) }
{
    let rows = rows_of(conn, "SELECT id FROM batch ORDER BY id DESC LIMIT 1", &[])?;
    first_number(rows.as_slice())
}
