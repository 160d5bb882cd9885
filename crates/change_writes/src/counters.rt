//! Computes the counters of a batch after a change.
ghost use Rattle.std.specs.Prelude.{◌≡◌, ◌-◌, ◌<◌, ◌^◌, IfSome, Some};
ghost use Rattle.job_facts.specs.Contents.{Entry as EntryValue};
ghost use Rattle.job_facts.specs.declared.facts.RecordState.TheVariants as rec;
ghost use Rattle.table_rows.specs.After.{less, more, one_opened, one_spoiled};
ghost use Rattle.table_rows.specs.After.{rows_written, stopped};
ghost use Rattle.table_rows.specs.Tables.{HasTotals, Tables};
ghost use Rattle.change_writes.specs.Counters.{summed};
ghost use Rattle.change_writes.specs.Writable.{AreBelow, HasRoom, IsWritable};

use job_facts::{BatchTotals, RecordState, SessionState};
use table_rows::{RecordPlace, Writing};

// Returns the counters with one record fewer in the state `stands`.
fn less(stands: RecordState, totals: &BatchTotals) -> BatchTotals
    requires { AreBelow (2 ^ 63 - 1) totals.now }
    ensures value { result ≡ less stands totals.now }
    ensures below { AreBelow (2 ^ 63 - 1) result }
{
    match stands {
        RecordState::Waiting => BatchTotals {
            waiting: totals.waiting.saturating_sub(1),
            ..*totals
        },
        RecordState::Running => BatchTotals {
            running: totals.running.saturating_sub(1),
            ..*totals
        },
        RecordState::Failed => BatchTotals {
            failed: totals.failed.saturating_sub(1),
            ..*totals
        },
        RecordState::Withdrawn => BatchTotals {
            withdrawn: totals.withdrawn.saturating_sub(1),
            ..*totals
        },
        RecordState::Good => BatchTotals {
            good: totals.good.saturating_sub(1),
            ..*totals
        },
    }
}

// Returns the counters with an additional record in the state `stands`.
fn more(stands: RecordState, totals: &BatchTotals) -> BatchTotals
    requires { AreBelow (2 ^ 63 - 1) totals.now }
    ensures value { result ≡ more stands totals.now }
    ensures below { AreBelow (2 ^ 63) result }
{
    let mut counters = *totals;
    match stands {
        RecordState::Waiting => counters.waiting += 1,
        RecordState::Running => counters.running += 1,
        RecordState::Failed => counters.failed += 1,
        RecordState::Withdrawn => counters.withdrawn += 1,
        RecordState::Good => counters.good += 1,
    }
    counters
}

/// Returns the counters after a record changes from `was` to `stands`.
pub(crate) fn passed(was: RecordState, stands: RecordState, totals: &BatchTotals) -> BatchTotals
    requires { AreBelow (2 ^ 63 - 1) totals.now }
    ensures value { result ≡ more stands (less was totals.now) }
    ensures below { AreBelow (2 ^ 63) result }
{
    more(stands, &less(was, totals))
}

/// Returns the counters after a session is opened for a waiting record.
pub(crate) fn opened(totals: &BatchTotals) -> BatchTotals
    requires { AreBelow (2 ^ 63 - 1) totals.now }
    ensures value { result ≡ one_opened (more rec.Running (less rec.Waiting totals.now)) }
    ensures below { AreBelow (2 ^ 63) result }
{
    BatchTotals {
        sessions: totals.sessions + 1,
        ..passed(RecordState::Waiting, RecordState::Running, totals)
    }
}

/// Returns the counters after the running session of a record is spoiled.
pub(crate) fn spoiled(totals: &BatchTotals) -> BatchTotals
    requires { AreBelow (2 ^ 63 - 1) totals.now }
    ensures value { result ≡ one_spoiled (more rec.Failed (less rec.Running totals.now)) }
    ensures below { AreBelow (2 ^ 63) result }
{
    BatchTotals {
        spoiled: totals.spoiled + 1,
        ..passed(RecordState::Running, RecordState::Failed, totals)
    }
}

// Returns the counters with the sum of the five states as the number of records, or `None` if the
// sum overflows.
fn summed(totals: &BatchTotals) -> Option<BatchTotals>
    ensures { IfSome result (λ all. all ≡ summed totals.now) }
{
    let records = totals
        .waiting
        .checked_add(totals.running)?
        .checked_add(totals.failed)?
        .checked_add(totals.withdrawn)?
        .checked_add(totals.good)?;
    Some(BatchTotals { records, ..*totals })
}

// Returns the counters after a status word leaves the session of the record in the state `stands`,
// or `None` if the session is still running.
fn stopped(place: &RecordPlace, stands: SessionState) -> Option<BatchTotals>
    requires { HasRoom place.now }
    ensures { IfSome result (λ totals. (t : Tables)
        → HasTotals place.now.batch (summed totals) (stopped place.now stands t)) }
{
    match stands {
        SessionState::Running => None,
        SessionState::Good => Some(passed(RecordState::Running, RecordState::Good, &place.totals)),
        SessionState::Spoiled => Some(spoiled(&place.totals)),
    }
}

// Returns the id of the batch whose counters the write sets, and the new counters, in which the
// number of records isn't updated.
fn moved(writing: &Writing<'_>) -> Option<(u64, BatchTotals)>
    requires { IsWritable writing.now }
    ensures totals { IfSome result (λ it. (t : Tables) (entry : EntryValue)
        → HasTotals it.0 (summed it.1) (rows_written writing.now entry t)) }
    ensures ranged { IfSome result (λ it. it.0 < 2 ^ 63) }
{
    match writing {
        Writing::Opens { place, .. } => Some((place.batch, opened(&place.totals))),
        Writing::AddsLastWord { stands, place, .. } => {
            Some((place.batch, stopped(place, *stands)?))
        }
        Writing::Ends { place, .. } => Some((place.batch, spoiled(&place.totals))),
        Writing::Remakes { place } => {
            let remade = passed(RecordState::Failed, RecordState::Waiting, &place.totals);
            Some((place.batch, remade))
        }
        Writing::Withdraws { was, place } => {
            let withdrawn = passed(*was, RecordState::Withdrawn, &place.totals);
            Some((place.batch, withdrawn))
        }
        _ => None,
    }
}

/// Returns the id of the batch whose counters the write sets, and the new counters. Returns `None`
/// if the write sets no counters of an existing batch.
pub fn counters_after(writing: &Writing<'_>) -> Option<(u64, BatchTotals)>
    requires { IsWritable writing.now }
    ensures totals { IfSome result (λ it. (t : Tables) (entry : EntryValue)
        → HasTotals it.0 it.1 (rows_written writing.now entry t)) }
    ensures ranged { IfSome result (λ it. it.0 < 2 ^ 63) }
{
    let (batch, totals) = moved(writing)?;
    Some((batch, summed(&totals)?))
}
