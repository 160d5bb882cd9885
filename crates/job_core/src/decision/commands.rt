//! Builds commands from the segments of a record.
ghost use Rattle.std.specs.Prelude.{◌≡◌, ◌≤◌, ℕ, List, Some, IfOk, IfSome, length, slice_get};
ghost use Rattle.store_data.specs.Cursor.{cursor_at, segment_at, shown};
ghost use Rattle.store_data.specs.Sequence.{IsPlan, Plan, sequence};
ghost use Rattle.job_facts.specs.Facts.{Facts};
ghost use Rattle.job_facts.specs.Rows.{placed_of, segment_row_of};
ghost use Rattle.job_facts.specs.declared.rows.SegmentRow.{SegmentRow as SegmentRowValue};
ghost use Rattle.job_facts.specs.States.{plan_for};
ghost use Rattle.job_facts.specs.Store.{LeavesContents, Reads};

use job_facts::{JobStore, SegmentRow, StoreFault};
use std::alloc::{AllocError, Global};
use store_data::{Bytes, Cursor, Name, SegmentView};

/// Returns the command at `cursor` in the plan of the record `rec`, or `None` at the end of the
/// plan.
pub(crate) fn command<S: JobStore>(
    alloc: Global,
    store: &mut S,
    batch: &Name,
    rec: &Name,
    cursor: &Cursor,
) -> Result<Option<Bytes>, StoreFault>
    ensures value { Reads (S.state store.old) (S.state store.new) result
        (λ c answer. (plan : Plan) (k : ℕ) → plan_for c.facts batch.now rec.now ≡ Some plan
        → IsPlan plan → cursor_at plan k ≡ Some cursor.now → answer ≡ slice_get (sequence plan) k) }
    ensures leaves { LeavesContents (S.state store.old) (S.state store.new) result }
{
    let segment = store.segment(batch, rec, cursor.app, cursor.segment)?;
    Ok(command_from(alloc, &segment, cursor)?)
}

/// Returns the command at `cursor` from `segment`, the segment of the record at the cursor, or
/// `None` at the end of the plan.
pub(crate) fn command_from(
    alloc: Global,
    segment: &Option<SegmentRow>,
    cursor: &Cursor,
) -> Result<Option<Bytes>, AllocError>
    requires { IfSome segment.now (λ (row : SegmentRowValue). row.low ≤ 31) }
    ensures { (f : Facts) (b r : List ℕ) (plan : Plan) (k : ℕ) → plan_for f b r ≡ Some plan
        → IsPlan plan → cursor_at plan k ≡ Some cursor.now
        → segment.now ≡ segment_row_of f b r cursor.now.app cursor.now.segment
        → IfOk result (λ answer. answer ≡ slice_get (sequence plan) k) }
{
    match segment {
        None => Ok(None),
        Some(segment) => Ok(command_in(alloc, segment, cursor)?),
    }
}

// Returns the command at `cursor` from `segment`, the segment at the cursor. Returns `None` if the
// cursor doesn't fit the segment, which never happens for the cursors of a plan.
fn command_in(
    alloc: Global,
    segment: &SegmentRow,
    cursor: &Cursor,
) -> Result<Option<Bytes>, AllocError>
    requires { segment.now.low ≤ 31 }
    ensures { (plan : Plan) (k : ℕ) → IsPlan plan → cursor_at plan k ≡ Some cursor.now
        → segment_at plan cursor.now.app cursor.now.segment ≡ Some (placed_of segment.now)
        → plan.max ≡ segment.now.max → plan.low ≡ segment.now.low
        → IfOk result (λ answer. answer ≡ slice_get (sequence plan) k) }
{
    let view = view(segment);
    if view.bytes.len() < cursor.offset as usize || cursor.block > 256 {
        return Ok(None);
    }
    let mut out = [0; 260];
    let size = cursor.put_from(&view, segment.max, segment.low, &mut out);
    Ok(Some(Bytes::from_vec(Vec::from_slice(alloc, &out[..size])?)))
}

/// Borrows the segment in the form that a cursor needs.
pub(crate) fn view(segment: &SegmentRow) -> SegmentView<'_>
    ensures shown { shown result ≡ placed_of segment.now }
    ensures few { length result.aid.now ≤ 16 }
{
    SegmentView {
        aid: segment.aid.bytes(),
        bytes: segment.bytes.as_slice(),
        enc: segment.enc,
        tol: segment.tol,
        last: segment.last,
    }
}
