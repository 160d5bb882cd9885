//! Finds the two rows of a fault of a record.
ghost use Rattle.std.specs.Prelude.{◌≡◌, ◌≤◌, ◌++◌, ◌∷◌, [], Ok, List, IfOk, IfSome, OnOk, length};
ghost use Rattle.std.specs.Prelude.{map};
ghost use Rattle.std.specs.List.{find};
ghost use Rattle.store_data.specs.Sequence.{IsProduct, IsRow};
ghost use Rattle.batch_import.specs.Batch.{Coming, coming_of};
ghost use Rattle.batch_import.specs.Walks.{HasFewRows};
ghost use Rattle.import_causes.specs.Causes.{Numbered};
ghost use Rattle.import_causes.specs.Pairs.{clash, differ, first_pair, overflow, partner};
ghost use Rattle.import_causes.specs.Pairs.{record_fault, repeat, rows_named};
ghost use Rattle.import_causes.specs.Pairs.{same_application, two_rows, with_named};
ghost use Rattle.import_causes.specs.Walks.{Advances, AreRanked};

use batch_import::{BatchRows, ImportFault, Kind, rows};
use std::alloc::{AllocError, Global};
use store_data::{PlanFault, Product, Row, Summary, check_record};

/// The number of the first data row. Row 1 is the header.
const FIRST_DATA_ROW: u32 = 2;

/// The number and the summary of a row.
pub(crate) type NumberedRow = (u32, Summary);

/// Returns the two rows of a fault of the record `name` of the batch file `raw`, the earlier one
/// first, or `None` if the fault isn't one of 21 to 23. The later one completes the fault: up to
/// the row before it, the rows of the record don't have the fault. For fault 23, the earlier one is
/// the first row of its application, and both can be the same row.
///
/// # Errors
///
/// Returns `AllocError` if an allocation fails.
pub(crate) fn two_rows(
    alloc: Global,
    raw: &[u8],
    product: &Product,
    kind: Kind,
    name: &[u8],
) -> Result<Option<(NumberedRow, NumberedRow)>, AllocError>
    requires { IsProduct product.now }
    ensures { IfOk result (λ two. two ≡ two_rows raw.now product.now kind name.now) }
{
    let Some(fault) = record_fault(kind) else {
        return Ok(None);
    };
    let rows = rows_named(alloc, raw, product, name)?;
    first_pair(alloc, fault, product.max, rows.as_slice())
}

// Returns the fault of a record that `kind` is, if any.
fn record_fault(kind: Kind) -> Option<PlanFault>
    ensures { result ≡ record_fault kind }
{
    match kind {
        Kind::MarksDiffer => Some(PlanFault::MarksDiffer),
        Kind::IdentifierTwice => Some(PlanFault::IdentifierTwice),
        Kind::TooManyBlocks => Some(PlanFault::TooManyBlocks),
        Kind::NotSixFields
        | Kind::Header
        | Kind::RecordName
        | Kind::Aid
        | Kind::Rank
        | Kind::Mark
        | Kind::Grouping
        | Kind::NotARecord
        | Kind::TooManyRows
        | Kind::TooManyRecords
        | Kind::NoRows => None,
    }
}

// Returns the rows of the record `name` before the first faulty row of the file.
fn rows_named(
    alloc: Global,
    raw: &[u8],
    product: &Product,
    name: &[u8],
) -> Result<Vec<NumberedRow>, AllocError>
    ensures value { IfOk result
        (λ v. v.items ≡ rows_named name.now (coming_of product.now.check raw.now).rows) }
    ensures ranked { IfOk result (λ v. AreRanked v.items) }
{
    let mut kept = Vec::new(alloc);
    add_named(&mut rows(alloc, raw, product), &mut kept, name)?;
    Ok(kept)
}

// Adds the rows of the record `name` before the first faulty row of `stream` to `kept`, which is
// empty. The prover is slow at a loop in the function that owns `stream`.
fn add_named(
    stream: &mut BatchRows<'_>,
    kept: &mut Vec<NumberedRow>,
    name: &[u8],
) -> Result<(), AllocError>
    requires few { HasFewRows stream.old }
    requires empty { kept.old.items ≡ [] }
    ensures value { OnOk result ((coming : Coming) → stream.old ≡ Ok coming
        → kept.new.items ≡ rows_named name.now coming.rows) }
    ensures ranked { OnOk result (AreRanked kept.new.items) }
{
    let mut number = FIRST_DATA_ROW;
    while let Some(row) = next_row(stream)? {
        push_named(kept, number, &row, name)?;
        number += 1;
    }
    Ok(())
}

// Adds the row `row` with number `number` if it is a row of the record `name`.
fn push_named(
    kept: &mut Vec<NumberedRow>,
    number: u32,
    row: &Row,
    name: &[u8],
) -> Result<(), AllocError>
    requires { IsRow row.now }
    ensures { OnOk result (kept.new.items ≡ with_named name.now kept.old.items number row.now) }
{
    if row.rec.bytes() != name {
        return Ok(());
    }
    kept.push((number, Summary::of(row)))?;
    Ok(())
}

// Returns the next row, or `None` at the end of the file and at a faulty row.
fn next_row(stream: &mut BatchRows<'_>) -> Result<Option<Row>, AllocError>
    ensures next { (more : Coming) → stream.old ≡ Ok more
        → IfOk result (λ o. Advances more o stream.new) }
    ensures row { IfOk result (λ o. IfSome o IsRow) }
{
    match stream.next() {
        Ok(row) => Ok(row),
        Err(ImportFault::At(_)) => Ok(None),
        Err(ImportFault::Memory) => Err(AllocError),
    }
}

// Returns the first of `rows` that has the fault with an earlier row, and the first such row.
fn first_pair(
    alloc: Global,
    fault: PlanFault,
    max: u8,
    rows: &[NumberedRow],
) -> Result<Option<(NumberedRow, NumberedRow)>, AllocError>
    requires max { 1 ≤ max }
    requires rows { AreRanked rows.now }
    ensures { IfOk result (λ two. two ≡ first_pair fault max [] rows.now) }
{
    for i in 0..rows.len() {
        if let Some(first) = partner(alloc, fault, max, &rows[..i + 1], &rows[i])? {
            return Ok(Some((first, rows[i])));
        }
    }
    Ok(None)
}

// Returns the first row with which `row`, the last of `rows`, has the fault.
fn partner(
    alloc: Global,
    fault: PlanFault,
    max: u8,
    rows: &[NumberedRow],
    row: &NumberedRow,
) -> Result<Option<NumberedRow>, AllocError>
    requires max { 1 ≤ max }
    requires rows { AreRanked rows.now }
    requires some { 1 ≤ length rows.now }
    ensures { (before : List Numbered) → rows.now ≡ before ++ row.now ∷ []
        → IfOk result (λ o. o ≡ partner fault max before row.now) }
{
    let before = &rows[..rows.len() - 1];
    match fault {
        PlanFault::MarksDiffer => Ok(first_with(fault, before, &row.1)),
        PlanFault::IdentifierTwice => Ok(first_with(fault, before, &row.1)),
        PlanFault::TooManyBlocks => {
            if overflows(alloc, max, rows)? {
                Ok(first_with(fault, rows, &row.1))
            } else {
                Ok(None)
            }
        }
        PlanFault::Memory => Ok(None),
    }
}

// Returns the first of `rows` that has the fault with `row`.
fn first_with(fault: PlanFault, rows: &[NumberedRow], row: &Summary) -> Option<NumberedRow>
    ensures { result ≡ find (λ (e : Numbered). clash fault e.1 row.now) rows.now }
{
    for earlier in rows {
        if clash(fault, &earlier.1, row) {
            return Some(*earlier);
        }
    }
    None
}

// Returns `true` if the rows `one` and `other` have the fault. For fault 23, this is `true` if they
// are in the same application.
fn clash(fault: PlanFault, one: &Summary, other: &Summary) -> bool
    ensures { result ≡ clash fault one.now other.now }
{
    match fault {
        PlanFault::MarksDiffer => differ(one, other),
        PlanFault::IdentifierTwice => repeat(one, other),
        PlanFault::TooManyBlocks => same_application(one, other),
        PlanFault::Memory => false,
    }
}

fn same_application(one: &Summary, other: &Summary) -> bool
    ensures { result ≡ same_application one.now other.now }
{
    one.aid.bytes() == other.aid.bytes()
}

// Returns `true` if the rows have the same application and rank, and differ in `enc` or `tol`.
fn differ(one: &Summary, other: &Summary) -> bool
    ensures { result ≡ differ one.now other.now }
{
    same_application(one, other)
        && one.rank == other.rank
        && !(one.enc == other.enc && one.tol == other.tol)
}

// Returns `true` if the rows have the same application and identifier.
fn repeat(one: &Summary, other: &Summary) -> bool
    ensures { result ≡ repeat one.now other.now }
{
    same_application(one, other) && one.identifier == other.identifier
}

// Returns `true` if the record with the rows `rows` has fault 23.
fn overflows(alloc: Global, max: u8, rows: &[NumberedRow]) -> Result<bool, AllocError>
    requires max { 1 ≤ max }
    requires rows { AreRanked rows.now }
    ensures { IfOk result (λ full. full ≡ overflow max rows.now) }
{
    match check_record(alloc, max, summaries(alloc, rows)?) {
        Err(PlanFault::Memory) => Err(AllocError),
        Err(PlanFault::TooManyBlocks) => Ok(true),
        Err(PlanFault::MarksDiffer) => Ok(false),
        Err(PlanFault::IdentifierTwice) => Ok(false),
        Ok(()) => Ok(false),
    }
}

fn summaries(alloc: Global, rows: &[NumberedRow]) -> Result<Vec<Summary>, AllocError>
    ensures { IfOk result (λ summaries.
        summaries.items ≡ map (λ (e : Numbered). e.1) rows.now) }
{
    let mut summaries = Vec::with_capacity(alloc, rows.len())?;
    for (_, summary) in rows {
        summaries.push(*summary)?;
    }
    Ok(summaries)
}
