//! The statements that read the table `lot`.
ghost use Rattle.std.specs.Prelude.{◌≡◌, false, filter, find, length, map, min, option_map};
ghost use Rattle.std.specs.Prelude.{IfOk, IfSome, IsPermutation};
ghost use Rattle.sqlite.specs.Held.{state};
ghost use Rattle.job_facts.specs.States.{any_overlaps};
ghost use Rattle.row_reads.specs.Decoding.{IsAny, lot_in, lot_row_in};
ghost use Rattle.row_reads.specs.Extremes.{IsLastBegun};
ghost use Rattle.row_reads.specs.Readable.{IsLotAnswer, IsLotRowAnswer};
ghost use Rattle.row_reads.specs.Reads.{FindsRows};
ghost use Rattle.row_reads.specs.RowValues.{IsLotRow, lot_row_of};
ghost use Rattle.table_rows.specs.Keys.{is_lot_for, is_lot_named};
ghost use Rattle.table_rows.specs.Tables.{PassesOnce, StoredLot};

use crate::answered::{Answered, all_of, one_of};
use crate::values::{count, long_at, name_at, number_at};
use job_facts::{Lot, any_overlaps};
use sql_base::{int, rows_of};
use sqlite::types::ValueRef;
use sqlite::{Alter, Connection, Error, Row};
use store_data::Name;

/// The highest serial of a blank.
pub const MOST_SERIAL: u64 = 999_999_999_999_999_999;

/// A lot with the number of its discarded blanks.
#[derive(Clone, Copy)]
pub struct LotRow {
    /// The lot.
    pub lot: Lot,
    /// The number of its discarded blanks.
    pub discarded: u64,
}

// ---- rows

impl Answered for Lot {
    ghost value = { lot_in };

    ghost fits = { IsAny };

    ghost readable = { IsLotAnswer };

    fn read(row: &Row) -> Result<Lot, Error> {
        Ok(Lot {
            first: number_at(row, 0)?,
            count: long_at(row, 1)?,
            name: name_at(row, 2)?,
            product: name_at(row, 3)?,
        })
    }
}

impl Answered for LotRow {
    ghost value = { lot_row_in };

    ghost fits = { IsLotRow };

    ghost readable = { IsLotRowAnswer };

    fn read(row: &Row) -> Result<LotRow, Error> {
        Ok(LotRow {
            lot: Lot::read(row)?,
            discarded: number_at(row, 4)?,
        })
    }
}

// ---- queries

/// Returns the lot with the name `name`.
pub fn lot<S: Alter>(conn: &mut Connection<S>, name: &Name) -> Result<Option<LotRow>, Error>
    requires { conn.old.in_transaction ≡ false }
    ensures finds { FindsRows (state S.Store conn.old) (state S.Store conn.new) result
        (λ t found. PassesOnce (is_lot_named name.now) t.lots
        → found ≡ option_map lot_row_of (find (is_lot_named name.now) t.lots)) }
    ensures ranged { IfOk result (λ found. IfSome found IsLotRow) }
{
    let sql = "SELECT low_serial, amount, name, product, discarded FROM lot WHERE name = ?1";
    one_of(conn, sql, &[ValueRef::Text(name.bytes())])
}

/// Returns all lots, in any order.
pub fn all_lots<S: Alter>(conn: &mut Connection<S>) -> Result<Vec<Lot>, Error>
    requires { conn.old.in_transaction ≡ false }
    ensures { FindsRows (state S.Store conn.old) (state S.Store conn.new) result
        (λ t lots. IsPermutation (map (λ (l : StoredLot). l.lot) t.lots) lots.items) }
{
    let sql = "SELECT low_serial, amount, name, product FROM lot";
    all_of(conn, sql, &[])
}

/// Returns the lots of the product `product`, in any order.
pub fn lots_of<S: Alter>(conn: &mut Connection<S>, product: &Name) -> Result<Vec<LotRow>, Error>
    requires { conn.old.in_transaction ≡ false }
    ensures { FindsRows (state S.Store conn.old) (state S.Store conn.new) result
        (λ t lots.
        IsPermutation (map lot_row_of (filter (is_lot_for product.now) t.lots)) lots.items) }
{
    let sql = "SELECT low_serial, amount, name, product, discarded FROM lot WHERE product = ?1";
    all_of(conn, sql, &[ValueRef::Text(product.bytes())])
}

/// Returns the last lot that starts at or before `blank`, or at or before `MOST_SERIAL` if `blank`
/// is higher. SQLite finds it with the index on `low_serial`.
pub fn last_lot<S: Alter>(conn: &mut Connection<S>, blank: u64) -> Result<Option<Lot>, Error>
    requires { conn.old.in_transaction ≡ false }
    ensures { FindsRows (state S.Store conn.old) (state S.Store conn.new) result
        (λ t found. IsLastBegun (min blank MOST_SERIAL) (map (λ (l : StoredLot). l.lot) t.lots)
        found) }
{
    let serial = blank.min(MOST_SERIAL);
    let sql = "SELECT low_serial, amount, name, product FROM lot WHERE low_serial <= ?1 \
        ORDER BY low_serial DESC LIMIT 1";
    one_of(conn, sql, &[int(serial)])
}

/// Returns `true` if a lot contains one of the `count` serials that start with `first`.
pub fn overlaps<S: Alter>(conn: &mut Connection<S>, first: u64, count: u32) -> Result<bool, Error>
    requires { conn.old.in_transaction ≡ false }
    ensures { FindsRows (state S.Store conn.old) (state S.Store conn.new) result
        (λ t found. found ≡ any_overlaps (map (λ (l : StoredLot). l.lot) t.lots) first count) }
{
    let lots = all_lots(conn)?;
    Ok(any_overlaps(lots.as_slice(), first, count))
}

/// Returns the number of lots.
pub fn lot_count<S: Alter>(conn: &mut Connection<S>) -> Result<u64, Error>
    requires { conn.old.in_transaction ≡ false }
    ensures { FindsRows (state S.Store conn.old) (state S.Store conn.new) result
        (λ t count. count ≡ length t.lots) }
{
    let rows = rows_of(conn, "SELECT name FROM lot", &[])?;
    Ok(count(rows.as_slice()))
}
