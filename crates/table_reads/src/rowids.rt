//! The rowids in the rows of a query, which are the first values of the rows.
ghost use Rattle.std.specs.Prelude.{◌≡◌, ◌↔◌, IsPermutation, IsSortedByKey, IsTrue};
ghost use Rattle.std.specs.Prelude.{MatchOption, OnOk};
ghost use Rattle.std.specs.Ordering.{int_cmp};
ghost use Rattle.sqlite.specs.Tree.{rowid};
ghost use Rattle.sqlite.specs.Value.{owned};
ghost use Rattle.sqlite.specs.declared.types.Value.TheVariants.{Int};
ghost use Rattle.table_reads.specs.Rowids.{AreRising, IsRisingFrom, int_in, rowid_int};

use crate::values::value_at;
use sqlite::Row;
use sqlite::types::ValueRef;
use std::alloc::AllocError;

// Returns the integer of `value`, or 0 if it isn't an integer.
fn int_or_zero(value: ValueRef<'_>) -> i64
    ensures { result ≡ int_in (owned value.entry) }
{
    match value {
        ValueRef::Int(z) => z,
        _ => 0,
    }
}

pub(crate) fn rowid_in(row: &Row) -> Option<i64>
    ensures { MatchOption result (Int (rowid_int row.now) ≡ rowid row.now → ⊥)
        (λ z. Int z ≡ rowid row.now) }
{
    match value_at(row, 0) {
        ValueRef::Int(z) => Some(z),
        _ => None,
    }
}

// Returns `true` if every rowid is an integer higher than the one before it, and the first is
// higher than `floor`.
fn is_rising_from(rows: &[Row], floor: i64) -> bool
    ensures { IsTrue result ↔ IsRisingFrom floor rows.now }
{
    let mut rest = rows;
    let mut last = floor;
    while let [row, more @ ..] = rest {
        let Some(z) = rowid_in(row) else {
            return false;
        };
        if z <= last {
            return false;
        }
        last = z;
        rest = more;
    }
    true
}

pub(crate) fn are_rising(rows: &[Row]) -> bool
    ensures { IsTrue result ↔ AreRising rows.now }
{
    match rows {
        [] => true,
        [row, more @ ..] => match rowid_in(row) {
            Some(z) => is_rising_from(more, z),
            None => false,
        },
    }
}

// Sorts rows by their rowids. They usually have this order already when they are read.
pub(crate) fn sort_rowids(rows: &mut Vec<Row>) -> Result<(), AllocError>
    ensures same { IsPermutation rows.old.items rows.new.items }
    ensures sorted { OnOk result (IsSortedByKey rowid_int int_cmp rows.new.items) }
{
    rows.sort_by_key(
        |row: &Row| -> i64
            ensures { result ≡ rowid_int row.now }
        { int_or_zero(value_at(row, 0)) },
    )?;
    Ok(())
}
