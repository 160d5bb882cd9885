//! Checks a record and its sessions.
ghost use Rattle.std.specs.Prelude.{◌≡◌, ◌↔◌, IfOk, IsTrue, All, count_by, nat_lt};
ghost use Rattle.table_rows.specs.Tables.{StoredSession as SessionValue};
ghost use Rattle.job_facts.specs.Sound.{has_card};
ghost use Rattle.job_facts.specs.States.{same_session_state};
ghost use Rattle.audit_laws.specs.Audited.{IsAuditedRecord, IsAuditedSession, is_withdrawn};
ghost use Rattle.audit_order.specs.Order.{AreReady};
ghost use Rattle.audit_cards.specs.Sessions.{HasPlan, HasRows, IsSoundCount, StandsBy};
ghost use Rattle.audit_cards.specs.Sessions.{state_by_count};
ghost use Rattle.audit_cards.specs.Sessions.{states_in};

use crate::by_record::SessionRef;
use crate::sessions::is_audited_session;
use job_facts::{RecordState, SessionState};
use std::alloc::{AllocError, Global};
use store_data::{Product, RecordPlan, Row, plan_of_sound};
use table_rows::{StoredBatch, StoredRecord, Tables};

/// Returns the number of sessions with the state `state`.
pub(crate) fn count_of(sessions: &[SessionRef<'_>], state: SessionState) -> u64
    ensures { result
        ≡ count_by (λ (s : SessionValue). same_session_state state s.state) sessions.now }
{
    sessions
        .iter()
        .filter(|session| session.state() == state)
        .count() as u64
}

// Returns `true` if the state is good or running.
fn has_card(state: SessionState) -> bool
    ensures { result ≡ has_card state }
{
    matches!(state, SessionState::Good | SessionState::Running)
}

// Returns the number of sessions that are good or running.
fn cards_of(sessions: &[SessionRef<'_>]) -> u64
    ensures { result ≡ count_by (λ (s : SessionValue). has_card s.state) sessions.now }
{
    sessions
        .iter()
        .filter(|session| has_card(session.state()))
        .count() as u64
}

// Returns `true` if a record can have `cards` sessions that are good or running, `spoiled` spoiled
// sessions, and `remakes` remakes.
fn is_sound_count(cards: u64, spoiled: u64, withdrawn: bool, remakes: u64) -> bool
    ensures { IsTrue result ↔ IsSoundCount cards spoiled withdrawn remakes }
{
    if cards > 1 || remakes > spoiled {
        return false;
    }
    if cards == 1 {
        return remakes == spoiled && !withdrawn;
    }
    spoiled - remakes <= 1
}

fn is_withdrawn(stored: &StoredRecord) -> bool
    ensures { result ≡ is_withdrawn stored.now }
{
    matches!(stored.state, RecordState::Withdrawn)
}

// Returns the state of a record with these numbers of good, running and spoiled sessions.
fn state_by(stored: &StoredRecord, good: u64, running: u64, spoiled: u64) -> RecordState
    ensures { result ≡ state_by_count (nat_lt 0 good) (nat_lt 0 running) (is_withdrawn stored.now)
        (nat_lt stored.now.remakes spoiled) }
{
    if good > 0 {
        RecordState::Good
    } else if running > 0 {
        RecordState::Running
    } else if is_withdrawn(stored) {
        RecordState::Withdrawn
    } else if stored.remakes < spoiled {
        RecordState::Failed
    } else {
        RecordState::Waiting
    }
}

// Returns `true` if the row has this number of spoiled sessions and this state.
fn has_spoiled_and_state(stored: &StoredRecord, spoiled: u64, state: RecordState) -> bool
    ensures { IsTrue result ↔ ((stored.now.spoiled ≡ spoiled) × (stored.now.state ≡ state)) }
{
    stored.spoiled == spoiled && stored.state == state
}

// Returns `true` if the number of remakes is possible with these numbers of sessions.
fn is_remade(stored: &StoredRecord, cards: u64, spoiled: u64) -> bool
    ensures { IsTrue result
        ↔ IsSoundCount cards spoiled (is_withdrawn stored.now) stored.now.remakes }
{
    is_sound_count(cards, spoiled, is_withdrawn(stored), stored.remakes)
}

// Returns `true` if the row `stored` is right for a record with the sessions `own`.
fn stands_by(stored: &StoredRecord, own: &[SessionRef<'_>]) -> bool
    ensures { IsTrue result ↔ StandsBy (states_in own.now) stored.now }
{
    let good = count_of(own, SessionState::Good);
    let running = count_of(own, SessionState::Running);
    let spoiled = count_of(own, SessionState::Spoiled);
    if !has_spoiled_and_state(stored, spoiled, state_by(stored, good, running, spoiled)) {
        return false;
    }
    is_remade(stored, cards_of(own), spoiled)
}

// Returns `true` if `session` obeys the audit rules. `plan` is the plan of its record.
fn is_audited(
    tables: &Tables,
    batch: &StoredBatch,
    plan: &RecordPlan<'_>,
    session: &SessionRef<'_>,
) -> bool
    requires ready { AreReady tables.now }
    requires plan { HasPlan tables.now session.now.batch session.now.place batch.now plan.now }
    ensures { IsTrue result ↔ IsAuditedSession tables.now session.now }
{
    is_audited_session(tables, batch, plan, session.row)
}

// Returns `true` if all sessions `own` of a record obey the audit rules. `plan` is the plan of the
// record.
fn are_audited(
    tables: &Tables,
    batch: &StoredBatch,
    plan: &RecordPlan<'_>,
    own: &[SessionRef<'_>],
) -> bool
    requires ready { AreReady tables.now }
    requires plans { All
        (λ (s : SessionValue). HasPlan tables.now s.batch s.place batch.now plan.now)
        own.now }
    ensures { IsTrue result ↔ All (IsAuditedSession tables.now) own.now }
{
    for session in own {
        if !is_audited(tables, batch, plan, session) {
            return false;
        }
    }
    true
}

/// A batch to audit: the tables that contain it, its row, and its product.
#[derive(Clone, Copy)]
pub(crate) struct AuditedBatch<'a> {
    pub(crate) tables: &'a Tables,
    pub(crate) batch: &'a StoredBatch,
    pub(crate) product: &'a Product,
}

/// Returns `true` if the record `stored` of the batch `audited` and its sessions `own` obey the
/// audit rules. `rows` are its rows in the batch file. The plan is made only if the record has
/// sessions.
///
/// # Errors
///
/// Returns `AllocError` if an allocation fails.
pub(crate) fn is_audited_record(
    alloc: Global,
    audited: &AuditedBatch<'_>,
    rows: &[Row],
    stored: &StoredRecord,
    own: &[SessionRef<'_>],
) -> Result<bool, AllocError>
    requires ready { AreReady audited.now.tables.now }
    requires rows { HasRows audited.now.tables.now audited.now.batch.now audited.now.product.now
        rows.now stored.now own.now }
    ensures { IfOk result (λ sound. IsTrue sound
        ↔ (IsAuditedRecord audited.now.tables.now stored.now
        × All (IsAuditedSession audited.now.tables.now) own.now)) }
{
    if !stands_by(stored, own) {
        return Ok(false);
    }
    if own.is_empty() {
        return Ok(true);
    }
    let plan = plan_of_sound(alloc, rows, audited.product)?;
    Ok(are_audited(audited.tables, audited.batch, &plan, own))
}
