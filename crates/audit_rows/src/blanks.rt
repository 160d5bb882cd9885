//! Checks the blanks, their lots and their sessions.
ghost use Rattle.std.specs.Prelude.{◌≡◌, ◌≢◌, ◌≤◌, ◌+◌, ◌^◌, ◌&&◌, ◌↔◌, IfOk, IsTrue, All, nat_le};
ghost use Rattle.std.specs.Prelude.{nat_lt};
ghost use Rattle.std.specs.Prelude.{AllPairs, IsPermutation, count_by, map};
ghost use Rattle.std.specs.List.Sorted.{IsNonDecreasing, IsNonDecreasingBy};
ghost use Rattle.job_facts.specs.States.{is_in};
ghost use Rattle.table_rows.specs.Tables.{StoredBlank as BlankValue, StoredLot as LotValue};
ghost use Rattle.table_rows.specs.Tables.{StoredSession as SessionValue};
ghost use Rattle.image_laws.specs.Decided.{discarded_rows};
ghost use Rattle.audit_laws.specs.Audited.{IsAuditedBlank, IsAuditedLot, opened_rows};
ghost use Rattle.audit_order.specs.Order.{AreReady};

use audit_order::lot_for;
use std::alloc::{AllocError, Global};
use table_rows::{StoredBlank, StoredLot, StoredSession, Tables};

// Returns `true` if no two blanks have the same serial. Compares only neighbours, because the blanks
// are in the order of their serials.
fn are_blanks_once(blanks: &[StoredBlank]) -> bool
    requires { IsNonDecreasingBy (λ (b : BlankValue). b.serial) blanks.now }
    ensures { IsTrue result
        ↔ AllPairs (λ (b c : BlankValue). b.serial ≢ c.serial) blanks.now }
{
    blanks.is_sorted_by(|blank, next| blank.serial < next.serial)
}

// Returns `true` if the row of `blank` names the lot `lot`.
fn names(blank: &StoredBlank, lot: &StoredLot) -> bool
    ensures { IsTrue result ↔ (lot.now.lot.name ≡ blank.now.lot) }
{
    lot.name.as_slice() == blank.lot.as_slice()
}

// Returns `true` if the serial of `blank` is in the lot that the row names.
fn is_audited_blank(tables: &Tables, blank: &StoredBlank) -> bool
    requires { AreReady tables.now }
    ensures { IsTrue result ↔ IsAuditedBlank tables.now blank.now }
{
    match lot_for(tables, blank.serial) {
        None => false,
        Some(lot) => names(blank, lot),
    }
}

/// Returns `true` if the serial of each blank of `blanks` is in the lot that its row names.
pub(crate) fn are_audited_blanks(tables: &Tables, blanks: &[StoredBlank]) -> bool
    requires { AreReady tables.now }
    ensures { IsTrue result ↔ All (IsAuditedBlank tables.now) blanks.now }
{
    blanks.iter().all(|blank| is_audited_blank(tables, blank))
}

// Returns the serials of the blanks that sessions opened.
fn opened_serials(alloc: Global, blanks: &[StoredBlank]) -> Result<Vec<u64>, AllocError>
    ensures { IfOk result (λ serials. serials.items
        ≡ map (λ (b : BlankValue). b.serial) (opened_rows blanks.now)) }
{
    blanks
        .iter()
        .filter(|blank| !blank.discarded)
        .map(|blank| blank.serial)
        .collect(alloc)
}

fn discarded_serials(alloc: Global, blanks: &[StoredBlank]) -> Result<Vec<u64>, AllocError>
    ensures { IfOk result (λ serials. serials.items
        ≡ map (λ (b : BlankValue). b.serial) (discarded_rows blanks.now)) }
{
    blanks
        .iter()
        .filter(|blank| blank.discarded)
        .map(|blank| blank.serial)
        .collect(alloc)
}

fn session_serials(alloc: Global, sessions: &[StoredSession]) -> Result<Vec<u64>, AllocError>
    ensures { IfOk result (λ serials. serials.items
        ≡ map (λ (s : SessionValue). s.serial) sessions.now) }
{
    sessions.iter().map(|session| session.serial).collect(alloc)
}

// Returns `true` if the serials are equal and in the same order.
fn is_same_list(first: &[u64], second: &[u64]) -> bool
    ensures { IsTrue result ↔ (first.now ≡ second.now) }
{
    first == second
}

// Returns `true` if both lists have the same serials, in any order.
fn are_same(first: Vec<u64>, second: Vec<u64>) -> Result<bool, AllocError>
    ensures { IfOk result (λ same. IsTrue same
        ↔ IsPermutation first.items second.items) }
{
    let (mut left, mut right) = (first, second);
    left.sort()?;
    right.sort()?;
    Ok(is_same_list(&left, &right))
}

// Returns `true` if the blanks that aren't discarded are exactly the blanks of the sessions.
fn are_opened(
    alloc: Global,
    blanks: &[StoredBlank],
    sessions: &[StoredSession],
) -> Result<bool, AllocError>
    ensures { IfOk result (λ same. IsTrue same
        ↔ IsPermutation (map (λ (b : BlankValue). b.serial) (opened_rows blanks.now))
        (map (λ (s : SessionValue). s.serial) sessions.now)) }
{
    let opened = opened_serials(alloc, blanks)?;
    let charged = session_serials(alloc, sessions)?;
    are_same(opened, charged)
}

// Returns the number of serials from `low` to `end - 1`.
fn count_between(serials: &[u64], low: u64, end: u64) -> usize
    requires rising { IsNonDecreasing serials.now }
    requires order { low ≤ end }
    ensures { result ≡ count_by (λ serial. nat_le low serial && nat_lt serial end) serials.now }
{
    let first = serials.partition_point(|serial| *serial < low);
    let last = serials.partition_point(|serial| *serial < end);
    last - first
}

// Returns `true` if the counter of `lot` is the number of serials in its range. `serials` are
// sorted, so that two binary searches find this number.
fn counts(lot: &StoredLot, serials: &[u64]) -> bool
    requires rising { IsNonDecreasing serials.now }
    requires range { lot.now.lot.first + lot.now.lot.count ≤ 10 ^ 18 }
    ensures { IsTrue result
        ↔ (lot.now.discarded ≡ count_by (λ serial. is_in serial lot.now.lot) serials.now) }
{
    let end = lot.low_serial + u64::from(lot.amount);
    lot.discarded == count_between(serials, lot.low_serial, end) as u64
}

// Returns `true` if the counters of all lots are right for the discarded blanks `serials`.
fn count_all(lots: &[StoredLot], serials: &[u64]) -> bool
    requires rising { IsNonDecreasing serials.now }
    requires ranges { All (λ (l : LotValue). l.lot.first + l.lot.count ≤ 10 ^ 18) lots.now }
    ensures { IsTrue result ↔ All (λ (l : LotValue). l.discarded
        ≡ count_by (λ serial. is_in serial l.lot) serials.now) lots.now }
{
    for lot in lots {
        if !counts(lot, serials) {
            return false;
        }
    }
    true
}

// Returns the serials of the discarded blanks in ascending order.
fn sorted_serials(alloc: Global, blanks: &[StoredBlank]) -> Result<Vec<u64>, AllocError>
    ensures rising { IfOk result (λ serials. IsNonDecreasing serials.items) }
    ensures same { IfOk result (λ serials. IsPermutation
        (map (λ (b : BlankValue). b.serial) (discarded_rows blanks.now)) serials.items) }
{
    let mut serials = discarded_serials(alloc, blanks)?;
    serials.sort()?;
    Ok(serials)
}

// Returns `true` if the counter of each lot is the number of its discarded blanks.
fn count_discarded(
    alloc: Global,
    lots: &[StoredLot],
    blanks: &[StoredBlank],
) -> Result<bool, AllocError>
    requires { All (λ (l : LotValue). l.lot.first + l.lot.count ≤ 10 ^ 18) lots.now }
    ensures { IfOk result (λ sound. IsTrue sound ↔ All (λ (l : LotValue). l.discarded
        ≡ count_by (λ (b : BlankValue). is_in b.serial l.lot) (discarded_rows blanks.now))
        lots.now) }
{
    let serials = sorted_serials(alloc, blanks)?;
    Ok(count_all(lots, &serials))
}

/// Returns `true` if the counter of each lot of `tables` is the number of its discarded blanks.
pub(crate) fn has_counts(alloc: Global, tables: &Tables) -> Result<bool, AllocError>
    requires { AreReady tables.now }
    ensures { IfOk result (λ sound. IsTrue sound ↔ All (IsAuditedLot tables.now) tables.now.lots) }
{
    count_discarded(alloc, &tables.lots, &tables.blanks)
}

/// Returns `true` if no two blanks of `tables` have the same serial.
pub(crate) fn has_once(tables: &Tables) -> bool
    requires { IsNonDecreasingBy (λ (b : BlankValue). b.serial) tables.now.blanks }
    ensures { IsTrue result
        ↔ AllPairs (λ (b c : BlankValue). b.serial ≢ c.serial) tables.now.blanks }
{
    are_blanks_once(&tables.blanks)
}

/// Returns `true` if the blanks of `tables` that aren't discarded are exactly the blanks of its
/// sessions.
pub(crate) fn has_opened(alloc: Global, tables: &Tables) -> Result<bool, AllocError>
    ensures { IfOk result (λ same. IsTrue same
        ↔ IsPermutation (map (λ (b : BlankValue). b.serial) (opened_rows tables.now.blanks))
        (map (λ (s : SessionValue). s.serial) tables.now.sessions)) }
{
    are_opened(alloc, &tables.blanks, &tables.sessions)
}
