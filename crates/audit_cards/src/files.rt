//! Compares the rows of records and groupings with the batch file.
ghost use Rattle.std.specs.Prelude.{◌≡◌, ◌↔◌, IfOk, IsTrue, Some, map, slice_get};
ghost use Rattle.table_rows.specs.After.{new_grouping};
ghost use Rattle.audit_laws.specs.Audited.{key_of};
ghost use Rattle.audit_cards.specs.Files.{IsNamed, groupings_in, keys_of, names_in};

use indexmap::IndexSet;
use std::alloc::{AllocError, Global};
use store_data::{Name, Row};
use table_rows::{StoredGrouping, StoredRecord};

/// Returns the names of the records of `rows`, in file order.
///
/// # Errors
///
/// Returns `AllocError` if an allocation fails.
pub(crate) fn names_of(alloc: Global, rows: &[Row]) -> Result<Vec<Name>, AllocError>
    ensures { IfOk result (λ names. names.items ≡ names_in rows.now) }
{
    let mut seen = IndexSet::new(alloc);
    let mut names = Vec::new(alloc);
    for row in rows {
        if seen.insert(row.rec)? {
            names.push(row.rec)?;
        }
    }
    Ok(names)
}

// Returns `true` if `stored` is the row of the record `name` at `place` of the batch `id`. The
// states of records are checked elsewhere.
fn is_record(stored: &StoredRecord, id: u64, place: usize, name: &Name) -> bool
    ensures { IsTrue result ↔ (key_of stored.now ≡ (id, (place, name.now))) }
{
    stored.batch == id && stored.place == place as u64 && stored.name.as_slice() == name.bytes()
}

/// Returns `true` if `records` are the rows of the records `names` of the batch `id`, in this
/// order.
pub(crate) fn are_records(records: &[StoredRecord], id: u64, names: &[Name]) -> bool
    ensures { IsTrue result ↔ (map key_of records.now ≡ keys_of id names.now) }
{
    if records.len() != names.len() {
        return false;
    }
    for place in 0..records.len() {
        if !is_record(&records[place], id, place, &names[place]) {
            return false;
        }
    }
    true
}

// Returns `true` if `name` is at index `place` of `names`.
fn is_at(names: &[Name], place: u64, name: &Name) -> bool
    ensures { IsTrue result ↔ (slice_get names.now place ≡ Some name.now) }
{
    match names.get(place as usize) {
        None => false,
        Some(other) => *other == *name,
    }
}

// Returns `true` if `grouping` belongs to batch `id` and has the row number `line`.
fn is_numbered(grouping: &StoredGrouping, id: u64, line: u64) -> bool
    ensures { IsTrue result ↔ ((grouping.now.batch ≡ id) × (grouping.now.line ≡ line)) }
{
    grouping.batch == id && grouping.line == line
}

// Returns `true` if `grouping` has the rank, the encryption and the `tol` field of `row`.
fn has_same_fields(grouping: &StoredGrouping, row: &Row) -> bool
    ensures { IsTrue result ↔ ((grouping.now.rank ≡ row.now.rank)
        × (grouping.now.enc ≡ row.now.enc) × (grouping.now.tol ≡ row.now.tol)) }
{
    grouping.rank == row.rank && grouping.enc == row.enc && grouping.tol == row.tol
}

// Returns `true` if `grouping` has the AID and the data grouping of `row`.
fn has_bytes(grouping: &StoredGrouping, row: &Row) -> bool
    ensures { IsTrue result
        ↔ ((grouping.now.aid ≡ row.now.aid) × (grouping.now.coded ≡ row.now.coded)) }
{
    grouping.aid.as_slice() == row.aid.bytes() && grouping.coded.as_slice() == row.coded.as_slice()
}

// Returns `true` if `grouping` has the place of the record of `row`.
fn is_placed(grouping: &StoredGrouping, row: &Row, names: &[Name]) -> bool
    ensures { IsTrue result ↔ (slice_get names.now grouping.now.place ≡ Some row.now.rec) }
{
    is_at(names, grouping.place, &row.rec)
}

// Returns `true` if `grouping` is the row of `grouping2` for `row`, which has the row number `line`
// in the file of the batch `id`.
fn is_grouping(grouping: &StoredGrouping, id: u64, line: u64, row: &Row, names: &[Name]) -> bool
    requires { IsNamed row.now.rec names.now }
    ensures { IsTrue result ↔ (grouping.now ≡ new_grouping id names.now (line, row.now)) }
{
    if !is_numbered(grouping, id, line) {
        return false;
    }
    if !is_placed(grouping, row, names) {
        return false;
    }
    if !has_same_fields(grouping, row) {
        return false;
    }
    has_bytes(grouping, row)
}

/// Returns `true` if `groupings` are the rows of `grouping2` for the rows of the file of the batch
/// `id`. `names` are the names of its records.
pub(crate) fn are_groupings(
    groupings: &[StoredGrouping],
    id: u64,
    rows: &[Row],
    names: &[Name],
) -> bool
    requires names { names.now ≡ names_in rows.now }
    ensures { IsTrue result ↔ (groupings.now ≡ groupings_in id rows.now) }
{
    if groupings.len() != rows.len() {
        return false;
    }
    for place in 0..groupings.len() {
        if !is_grouping(&groupings[place], id, place as u64 + 2, &rows[place], names) {
            return false;
        }
    }
    true
}
