//! Checks the number and the names of batches, and the batches to which rows belong.
ghost use Rattle.std.specs.Prelude.{◌↔◌, IsTrue, length};
ghost use Rattle.audit_rows.specs.Audit.{AreFewOnce, AreOwned};

use crate::ids::have_ids;
use crate::once::are_apart;
use table_rows::{StoredBatch, StoredGrouping, StoredRecord, StoredSession, Tables};

/// Returns `true` if there are at most 4,096 batches, and no two have the same name. The values of
/// batches are checked with their files.
pub(crate) fn are_batches(batches: &[StoredBatch]) -> bool
    ensures { IsTrue result ↔ AreFewOnce batches.now }
{
    batches.len() <= 4096 && are_apart(batches)
}

// Returns `true` if every record, grouping and session belongs to one of the batches 1 to `count`.
fn are_owned(
    count: usize,
    records: &[StoredRecord],
    groupings: &[StoredGrouping],
    sessions: &[StoredSession],
) -> bool
    ensures { IsTrue result ↔ AreOwned count records.now groupings.now sessions.now }
{
    if !have_ids(records, count) {
        return false;
    }
    if !have_ids(groupings, count) {
        return false;
    }
    have_ids(sessions, count)
}

/// Returns `true` if every record, grouping and session belongs to a batch of `tables`.
pub(crate) fn has_owners(tables: &Tables) -> bool
    ensures { IsTrue result ↔ AreOwned (length tables.now.batches) tables.now.records
        tables.now.groupings tables.now.sessions }
{
    are_owned(
        tables.batches.len(),
        &tables.records,
        &tables.groupings,
        &tables.sessions,
    )
}
