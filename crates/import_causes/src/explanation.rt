//! Finds the cause for refusing a batch file.
ghost use Rattle.std.specs.Prelude.{◌≡◌, Err, IfOk, IsSome};
ghost use Rattle.store_data.specs.Sequence.{IsProduct};
ghost use Rattle.batch_import.specs.Batch.{batch_of};
ghost use Rattle.import_causes.specs.Explanations.{earlier_row, explanation_of, later_row};
ghost use Rattle.import_causes.specs.Pairs.{record_fault};
ghost use Rattle.import_causes.specs.Starts.{start_of};

use crate::blame::{Blame, blame_of};
use crate::fields::read_row;
use crate::pair::{NumberedRow, two_rows};
use crate::start::{RowStart, from_row, start_at};
use batch_import::{Kind, RowFault};
use std::alloc::{AllocError, Global};
use store_data::Product;

/// The cause for refusing a batch file.
#[derive(Clone, Copy, PartialEq, Eq)]
pub struct Explanation {
    /// The fault.
    pub kind: Kind,
    /// The row with the fault. Two rows of a record have the faults 21 to 23 together, and this is
    /// the later one. The reply has the number of the first row of the record instead.
    pub row: u32,
    /// The start of this row, or `None` if the file has no rows.
    pub start: Option<RowStart>,
    /// The earlier one of the two rows of a fault of a record.
    pub other: Option<u32>,
    /// The field and the cause.
    pub blame: Blame,
}

/// Returns the cause of `fault`, the fault of the batch file `raw` for `product` (this project's
/// profile). The file is read again, but no reply depends on the result.
///
/// # Errors
///
/// Returns `AllocError` if an allocation fails.
pub fn explain_fault(
    alloc: Global,
    raw: &[u8],
    product: &Product,
    fault: RowFault,
) -> Result<Explanation, AllocError>
    requires { IsProduct product.now }
    ensures value { IfOk result
        (λ explanation. explanation ≡ explanation_of raw.now product.now fault) }
    // If the file is refused with one of the faults 21 to 23, both rows are named.
    ensures two { batch_of product.now raw.now ≡ Err fault → IsSome (record_fault fault.kind)
        → IfOk result (λ explanation. IsSome explanation.other) }
{
    let RowFault { kind, row: first } = fault;
    let rest = from_row(raw, first);
    let fields = read_row(alloc, rest)?;
    let two = two_rows(alloc, raw, product, kind, fields.field(0))?;
    let (row, other) = numbers_of(first, &two);
    let blame = blame_of(alloc, kind, &fields, two)?;
    let start = start_of(alloc, raw, row)?;
    Ok(Explanation {
        kind,
        row,
        start,
        other,
        blame,
    })
}

// Returns the later and the earlier one of the two rows of a fault of a record. For any other fault,
// returns its row `row`.
fn numbers_of(row: u32, two: &Option<(NumberedRow, NumberedRow)>) -> (u32, Option<u32>)
    ensures row { result.0 ≡ later_row row two.now }
    ensures other { result.1 ≡ earlier_row two.now }
{
    match two {
        Some((earlier, later)) => (later.0, Some(earlier.0)),
        None => (row, None),
    }
}

// Returns the start of row `row` of the file `raw`, or `None` if it doesn't have this row.
fn start_of(alloc: Global, raw: &[u8], row: u32) -> Result<Option<RowStart>, AllocError>
    ensures { IfOk result (λ start. start ≡ start_of row raw.now) }
{
    let rest = from_row(raw, row);
    let fields = read_row(alloc, rest)?;
    Ok(start_at(raw, rest, &fields))
}
