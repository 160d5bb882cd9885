//! Sorts the rows of the tables.
ghost use Rattle.std.specs.Prelude.{◌∷◌, [], OnOk};
ghost use Rattle.table_rows.specs.Tables.{HaveSameRows};
ghost use Rattle.audit_order.specs.Order.{AreSorted};

use crate::order::{InOrder, sort_rows};
use std::alloc::AllocError;
use table_rows::{
    StoredBatch, StoredBlank, StoredGrouping, StoredLot, StoredRecord, StoredRemake, StoredSession,
    StoredWord, Tables,
};

/// Lots are sorted by their first serials.
impl InOrder for StoredLot {
    ghost key = { λ l. l.lot.first ∷ 0 ∷ 0 ∷ [] };

    fn key(&self) -> [u64; 3] {
        [self.low_serial, 0, 0]
    }
}

/// Batches are sorted by their ids.
impl InOrder for StoredBatch {
    ghost key = { λ b. b.id ∷ 0 ∷ 0 ∷ [] };

    fn key(&self) -> [u64; 3] {
        [self.id, 0, 0]
    }
}

/// Records are sorted by batch and place.
impl InOrder for StoredRecord {
    ghost key = { λ r. r.batch ∷ r.place ∷ 0 ∷ [] };

    fn key(&self) -> [u64; 3] {
        [self.batch, self.place, 0]
    }
}

/// Groupings are sorted by batch and row number.
impl InOrder for StoredGrouping {
    ghost key = { λ g. g.batch ∷ g.line ∷ 0 ∷ [] };

    fn key(&self) -> [u64; 3] {
        [self.batch, self.line, 0]
    }
}

/// Sessions are sorted by their ids.
impl InOrder for StoredSession {
    ghost key = { λ s. s.id ∷ 0 ∷ 0 ∷ [] };

    fn key(&self) -> [u64; 3] {
        [self.id, 0, 0]
    }
}

/// Status words are sorted by session and place.
impl InOrder for StoredWord {
    ghost key = { λ w. w.session ∷ w.place ∷ 0 ∷ [] };

    fn key(&self) -> [u64; 3] {
        [self.session, self.place, 0]
    }
}

/// Blanks are sorted by their serials.
impl InOrder for StoredBlank {
    ghost key = { λ b. b.serial ∷ 0 ∷ 0 ∷ [] };

    fn key(&self) -> [u64; 3] {
        [self.serial, 0, 0]
    }
}

/// Remakes are sorted by batch, place and turn.
impl InOrder for StoredRemake {
    ghost key = { λ r. r.batch ∷ r.place ∷ r.turn ∷ [] };

    fn key(&self) -> [u64; 3] {
        [self.batch, self.place, self.turn]
    }
}

/// Sorts the rows of all tables by their keys, except the products, kept replies and release marks.
/// Takes time in O(n log n) for n rows.
///
/// # Errors
///
/// Returns `AllocError` if an allocation fails. Some tables may then be unsorted, but no row is
/// lost.
pub fn sort_tables(tables: &mut Tables) -> Result<(), AllocError>
    ensures same { HaveSameRows tables.old tables.new }
    ensures sorted { OnOk result (AreSorted tables.new) }
{
    sort_rows(&mut tables.lots)?;
    sort_rows(&mut tables.batches)?;
    sort_rows(&mut tables.records)?;
    sort_rows(&mut tables.groupings)?;
    sort_rows(&mut tables.sessions)?;
    sort_rows(&mut tables.words)?;
    sort_rows(&mut tables.blanks)?;
    sort_rows(&mut tables.remakes)?;
    Ok(())
}
