//! Checks the counters of a batch.
ghost use Rattle.std.specs.Prelude.{◌≡◌, ◌↔◌, IsTrue, count_by};
ghost use Rattle.std.specs.List.{list_all};
ghost use Rattle.job_facts.specs.States.{is_finished, same_record_state};
ghost use Rattle.table_rows.specs.Tables.{StoredRecord as RecordValue};
ghost use Rattle.audit_cards.specs.Files.{CountsBy, CountsRecords, CountsSessions, IsClosedWell};

use crate::by_record::SessionRef;
use crate::records::count_of;
use job_facts::{RecordState, SessionState};
use table_rows::{StoredBatch, StoredRecord};

// Returns the number of records with the state `state`.
fn count_records(records: &[StoredRecord], state: RecordState) -> u64
    ensures { result ≡ count_by (λ (r : RecordValue). same_record_state state r.state) records.now }
{
    records
        .iter()
        .filter(|stored| stored.state == state)
        .count() as u64
}

// Returns `true` if the record is good or withdrawn.
fn is_finished(stored: &StoredRecord) -> bool
    ensures { result ≡ is_finished stored.now.state }
{
    matches!(stored.state, RecordState::Good | RecordState::Withdrawn)
}

// Returns `true` if all records are good or withdrawn.
fn are_finished(records: &[StoredRecord]) -> bool
    ensures { result ≡ list_all (λ (r : RecordValue). is_finished r.state) records.now }
{
    records.iter().all(|stored| is_finished(stored))
}

// Returns `true` if the counters of `batch` are right for its records `records`.
fn counts_records(batch: &StoredBatch, records: &[StoredRecord]) -> bool
    ensures { IsTrue result ↔ CountsRecords records.now batch.now }
{
    batch.waiting == count_records(records, RecordState::Waiting)
        && batch.running == count_records(records, RecordState::Running)
        && batch.failed == count_records(records, RecordState::Failed)
        && batch.withdrawn == count_records(records, RecordState::Withdrawn)
        && batch.good == count_records(records, RecordState::Good)
}

// Returns `true` if the counters of `batch` are right for its sessions `sessions`.
fn counts_sessions(batch: &StoredBatch, sessions: &[SessionRef<'_>]) -> bool
    ensures { IsTrue result ↔ CountsSessions sessions.now batch.now }
{
    batch.sessions == sessions.len() as u64
        && batch.spoiled == count_of(sessions, SessionState::Spoiled)
}

// Returns `true` if `batch` is open, or all its records are good or withdrawn.
fn is_closed_well(batch: &StoredBatch, records: &[StoredRecord]) -> bool
    ensures { IsTrue result ↔ IsClosedWell records.now batch.now }
{
    !batch.closed || are_finished(records)
}

/// Returns `true` if the counters of `batch` are right for its records and sessions, and a closed
/// batch has only good and withdrawn records.
pub(crate) fn counts_by(
    batch: &StoredBatch,
    records: &[StoredRecord],
    sessions: &[SessionRef<'_>],
) -> bool
    ensures { IsTrue result
        ↔ CountsBy records.now sessions.now batch.now }
{
    counts_records(batch, records)
        && counts_sessions(batch, sessions)
        && is_closed_well(batch, records)
}
