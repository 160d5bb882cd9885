//! Reads the segments of a record.
ghost use Rattle.std.specs.Prelude.{◌≡◌, ◌≤◌, IfErr, IfOk, IfSome};
ghost use Rattle.job_facts.specs.declared.rows.SegmentRow.{SegmentRow as SegmentRowValue};
ghost use Rattle.job_facts.specs.declared.store.StoreFault.TheVariants.{Memory};
ghost use Rattle.job_facts.specs.Rows.{segment_row_of};

use crate::kept::copied;
use crate::lists::FactLists;
use crate::records::record_rows;
use job_facts::{SegmentRow, StoreFault};
use std::alloc::Global;
use store_data::{Aid, Name};

/// Returns a segment of the record `rec`, or `None` if the record doesn't have it.
pub(crate) fn segment_row_of(
    alloc: Global,
    facts: &FactLists,
    batch: &Name,
    rec: &Name,
    app: u16,
    segment: u16,
) -> Result<Option<SegmentRow>, StoreFault>
    ensures value { IfOk result
        (λ row. row ≡ segment_row_of facts.now batch.now rec.now app segment) }
    ensures ranged { IfOk result (λ row. IfSome row (λ (row : SegmentRowValue). row.low ≤ 31)) }
    ensures cause { IfErr result (λ fault. fault ≡ Memory) }
{
    let Some(rows) = record_rows(alloc, facts, batch, rec)? else {
        return Ok(None);
    };
    let plan = rows.plan(alloc)?;
    let Some(view) = plan.segment(app, segment) else {
        return Ok(None);
    };
    Ok(Some(SegmentRow {
        aid: Aid::new(view.aid),
        bytes: copied(alloc, view.bytes)?,
        enc: view.enc,
        tol: view.tol,
        last: view.last,
        max: plan.max(),
        low: plan.low(),
    }))
}
