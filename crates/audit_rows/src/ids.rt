//! Checks the ids of rows, and the ids of the batches to which rows belong.
ghost use Rattle.std.specs.Prelude.{◌≡◌, ◌↔◌, ℕ, All, IsTrue, length, map};
ghost use Rattle.std.specs.List.{range_with_len};
ghost use Rattle.audit_rows.specs.Audit.{IsIdOf};

use audit_order::Ranged;
use table_rows::{StoredBatch, StoredSession};

/// A row with an id.
pub(crate) trait Counted {
    ghost id: { Self → ℕ };

    /// Returns the id.
    fn id(&self) -> u64
        ensures { result ≡ id self.now };
}

impl Counted for StoredBatch {
    ghost id = { λ batch. batch.id };

    fn id(&self) -> u64 {
        self.id
    }
}

impl Counted for StoredSession {
    ghost id = { λ session. session.id };

    fn id(&self) -> u64 {
        self.id
    }
}

/// Returns `true` if the ids are 1, 2, .. in this order.
pub(crate) fn are_counted<T: Counted>(rows: &[T]) -> bool
    ensures { IsTrue result ↔ (map T.id rows.now ≡ range_with_len 1 (length rows.now)) }
{
    for place in 0..rows.len() {
        if rows[place].id() != place as u64 + 1 {
            return false;
        }
    }
    true
}

// Returns `true` if `id` is one of the ids 1 to `count`.
fn is_id(id: u64, count: usize) -> bool
    ensures { IsTrue result ↔ IsIdOf count id }
{
    id >= 1 && id <= count as u64
}

/// Returns `true` if every row belongs to one of the batches 1 to `count`.
pub(crate) fn have_ids<T: Ranged>(rows: &[T], count: usize) -> bool
    ensures { IsTrue result ↔ All (λ row. IsIdOf count (T.number row)) rows.now }
{
    rows.iter().all(|row| is_id(row.number(), count))
}
