//! Checks the remakes of each record.
ghost use Rattle.std.specs.Prelude.{◌≡◌, ◌↔◌, ◌<◌, ◌^◌, ◌+◌, ◌++◌, List, IfSome, IsTrue, None};
ghost use Rattle.std.specs.Prelude.{flat_map};
ghost use Rattle.table_rows.specs.Tables.{StoredRemake as RemakeValue};
ghost use Rattle.audit_laws.specs.Audited.{turns_of};
ghost use Rattle.audit_cards.specs.Sessions.{turn_of};

use table_rows::{StoredRecord, StoredRemake};

// Returns `true` if `remake` is the row of the remake of the record `stored` that follows `before`
// others.
fn is_turn(remake: &StoredRemake, stored: &StoredRecord, before: usize) -> bool
    requires { before < 2 ^ 63 }
    ensures { IsTrue result ↔ (remake.now ≡ turn_of stored.now (1 + before)) }
{
    remake.batch == stored.batch && remake.place == stored.place && remake.turn == before as u64 + 1
}

// Returns `true` if `remakes` are exactly the rows of `remake` for the record `stored`.
fn are_turns(remakes: &[StoredRemake], stored: &StoredRecord) -> bool
    ensures { IsTrue result ↔ (remakes.now ≡ turns_of stored.now) }
{
    if remakes.len() as u64 != stored.remakes {
        return false;
    }
    for before in 0..remakes.len() {
        if !is_turn(&remakes[before], stored, before) {
            return false;
        }
    }
    true
}

// Returns the rows after the remakes of the record `stored`, or `None` if `remakes` doesn't start
// with them.
fn behind_turns<'a>(
    remakes: &'a [StoredRemake],
    stored: &StoredRecord,
) -> Option<&'a [StoredRemake]>
    ensures some { IfSome result (λ rest. remakes.now ≡ turns_of stored.now ++ rest.now) }
    ensures none { result ≡ None → (rest : List RemakeValue)
        → remakes.now ≡ turns_of stored.now ++ rest → ⊥ }
{
    if stored.remakes > remakes.len() as u64 {
        return None;
    }
    let (turns, rest) = remakes.split_at(stored.remakes as usize);
    if are_turns(turns, stored) {
        Some(rest)
    } else {
        None
    }
}

/// Returns `true` if `remakes` are exactly the rows of `remake` for the records, in this order.
pub(crate) fn are_remakes(remakes: &[StoredRemake], records: &[StoredRecord]) -> bool
    ensures { IsTrue result ↔ (remakes.now ≡ flat_map turns_of records.now) }
{
    let mut rest = remakes;
    for stored in records {
        match behind_turns(rest, stored) {
            None => return false,
            Some(more) => rest = more,
        }
    }
    rest.is_empty()
}
