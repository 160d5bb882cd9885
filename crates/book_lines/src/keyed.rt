//! Rows keyed by a number, for look-ups by binary search.
ghost use Rattle.std.specs.Prelude.{◌≡◌, ◌∷◌, [], ℕ, IfOk, List, filter, map, option_map};
ghost use Rattle.std.specs.Prelude.{find, slice_get};
ghost use Rattle.audit_laws.specs.Audited.{is_session_of};
ghost use Rattle.std.specs.List.Sorted.{IsNonDecreasingBy};
ghost use Rattle.job_facts.specs.States.{same_session_state};
ghost use Rattle.table_rows.specs.Tables.{StoredSession as SessionValue};
ghost use Rattle.book_lines.specs.Blanks.{session_on};
ghost use Rattle.book_lines.specs.Keyed.{AreKeyed};

use audit_order::{InOrder, Ranged, range_of, sort_rows};
use job_facts::SessionState;
use std::alloc::{AllocError, Global};
use std::marker::Model;
use table_rows::StoredSession;

/// A row with its key.
#[derive(Drop)]
pub(crate) struct Keyed<'a, T> {
    pub(crate) number: u64,
    pub(crate) row: &'a T,
}

impl<'a, T> Model for Keyed<'a, T> {
    ghost use Rattle.std.specs.Prelude.{ℕ};

    ghost Value = { ℕ × T };

    ghost view = { λ k. (k.number, k.row.now) };
}

/// Sorts keyed rows by their keys.
impl<'a, T> InOrder for Keyed<'a, T> {
    ghost key = { λ k. k.0 ∷ 0 ∷ 0 ∷ [] };

    fn key(&self) -> [u64; 3] {
        [self.number, 0, 0]
    }
}

/// Finds keyed rows by their keys.
impl<'a, T> Ranged for Keyed<'a, T> {
    ghost number = { λ k. k.0 };

    fn number(&self) -> u64 {
        self.number
    }
}

// Returns the sessions keyed by serial, in the order of `sessions`.
fn serials(
    alloc: Global,
    sessions: &[StoredSession],
) -> Result<Vec<Keyed<'_, StoredSession>>, AllocError>
    ensures { IfOk result
        (λ keyed. keyed.items ≡ map (λ (s : SessionValue). (s.serial, s)) sessions.now) }
{
    let mut keyed = Vec::with_capacity(alloc, sessions.len())?;
    for row in sessions {
        keyed.push(Keyed {
            number: row.serial,
            row,
        })?;
    }
    Ok(keyed)
}

/// Returns the sessions keyed by serial, and sorted by their keys.
///
/// # Errors
///
/// Returns `AllocError` if an allocation fails.
pub(crate) fn by_serial(
    alloc: Global,
    sessions: &[StoredSession],
) -> Result<Vec<Keyed<'_, StoredSession>>, AllocError>
    ensures { IfOk result
        (λ keyed. AreKeyed (λ (s : SessionValue). s.serial) sessions.now keyed.items) }
{
    let mut keyed = serials(alloc, sessions)?;
    sort_rows(&mut keyed)?;
    Ok(keyed)
}

// Returns the sessions of the batch with the id `batch`, keyed by the positions of their records,
// in the order of `sessions`.
fn places(
    alloc: Global,
    sessions: &[StoredSession],
    batch: u64,
) -> Result<Vec<Keyed<'_, StoredSession>>, AllocError>
    ensures { IfOk result (λ keyed. keyed.items
        ≡ map (λ (s : SessionValue). (s.place, s)) (filter (is_session_of batch) sessions.now)) }
{
    let mut keyed = Vec::new(alloc);
    for row in sessions {
        if row.batch == batch {
            keyed.push(Keyed {
                number: row.place,
                row,
            })?;
        }
    }
    Ok(keyed)
}

/// Returns the sessions of the batch with the id `batch`, keyed by the positions of their records,
/// and sorted by their keys.
///
/// # Errors
///
/// Returns `AllocError` if an allocation fails.
pub(crate) fn by_place(
    alloc: Global,
    sessions: &[StoredSession],
    batch: u64,
) -> Result<Vec<Keyed<'_, StoredSession>>, AllocError>
    ensures { IfOk result (λ keyed. AreKeyed (λ (s : SessionValue). s.place)
        (filter (is_session_of batch) sessions.now) keyed.items) }
{
    let mut keyed = places(alloc, sessions, batch)?;
    sort_rows(&mut keyed)?;
    Ok(keyed)
}

/// Returns the first session on the blank `serial`.
pub(crate) fn session_on<'a>(
    by_serial: &[Keyed<'a, StoredSession>],
    serial: u64,
) -> Option<&'a StoredSession>
    requires { IsNonDecreasingBy (λ (k : ℕ × SessionValue). k.0) by_serial.now }
    ensures { (sessions : List SessionValue)
        → AreKeyed (λ (s : SessionValue). s.serial) sessions by_serial.now
        → option_map (λ s. s.now) result ≡ session_on sessions serial }
{
    first_row(range_of(by_serial, serial))
}

// Returns the session of the first element.
fn first_row<'a>(keyed: &[Keyed<'a, StoredSession>]) -> Option<&'a StoredSession>
    ensures { option_map (λ s. s.now) result
        ≡ option_map (λ (k : ℕ × SessionValue). k.1) (slice_get keyed.now 0) }
{
    match keyed.first() {
        None => None,
        Some(first) => Some(first.row),
    }
}

/// Returns the first session in `sessions` with the state `state`, if there is one.
pub(crate) fn first_with<'a>(
    sessions: &[Keyed<'a, StoredSession>],
    state: SessionState,
) -> Option<&'a StoredSession>
    ensures { option_map (λ s. s.now) result ≡ option_map (λ (k : ℕ × SessionValue). k.1)
        (find (λ (k : ℕ × SessionValue). same_session_state state k.1.state) sessions.now) }
{
    match sessions.iter().find(|session| has_state(session, state)) {
        None => None,
        Some(session) => Some(session.row),
    }
}

fn has_state(session: &Keyed<'_, StoredSession>, state: SessionState) -> bool
    ensures { result ≡ same_session_state state session.now.1.state }
{
    let row = session.row;
    state == row.state
}
