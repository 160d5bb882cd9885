//! Checks a session and its status words.
ghost use Rattle.std.specs.Prelude.{◌≡◌, ◌↔◌, IsTrue};
ghost use Rattle.job_facts.specs.Sound.{IsName};
ghost use Rattle.audit_laws.specs.Audited.{IsAuditedSession, words_of};
ghost use Rattle.audit_cards.specs.Cards.{status_words};
ghost use Rattle.audit_order.specs.Order.{AreReady};
ghost use Rattle.audit_cards.specs.Sessions.{HasPlan, IsFor};

use crate::cards::{card_after, state_of};
use audit_order::{is_name, lot_for, range_of};
use job_facts::SessionState;
use store_data::{Cursor, RecordPlan};
use table_rows::{StoredBatch, StoredLot, StoredSession, StoredWord, Tables};

// Returns `true` if the row of the session has the cursor `cursor`.
fn is_at(session: &StoredSession, cursor: &Cursor) -> bool
    ensures { IsTrue result ↔ (session.now.cursor ≡ cursor.now) }
{
    session.app == u64::from(cursor.app)
        && session.segment == u64::from(cursor.segment)
        && session.offset == u64::from(cursor.offset)
        && session.block == u64::from(cursor.block)
}

/// Returns the rows of the status words of `session`, in their order.
pub(crate) fn words_of<'a>(tables: &'a Tables, session: &StoredSession) -> &'a [StoredWord]
    requires { AreReady tables.now }
    ensures { status_words result.now ≡ words_of tables.now.words session.now.id }
{
    range_of(&tables.words, session.id)
}

// Returns `true` if the machine of the session has a valid name, and the row has this number of
// status words.
fn is_sized(session: &StoredSession, words: usize) -> bool
    ensures { IsTrue result ↔ (IsName session.now.machine × (session.now.words ≡ words)) }
{
    is_name(&session.machine) && session.words == words as u64
}

// Returns `true` if the row of the session has the state `state`.
fn stands(session: &StoredSession, state: SessionState) -> bool
    ensures { IsTrue result ↔ (session.now.state ≡ state) }
{
    session.state == state
}

// Returns `true` if `lot` is for the product of `batch`.
fn has_product(lot: &StoredLot, batch: &StoredBatch) -> bool
    ensures { IsTrue result ↔ (lot.now.lot.product ≡ batch.now.product) }
{
    lot.product.as_slice() == batch.product.as_slice()
}

// Returns `true` if the blank of the session is in a lot of the product of `batch`.
fn is_for(tables: &Tables, session: &StoredSession, batch: &StoredBatch) -> bool
    requires { AreReady tables.now }
    ensures { IsTrue result ↔ IsFor tables.now session.now.serial batch.now.product }
{
    match lot_for(tables, session.serial) {
        None => false,
        Some(lot) => has_product(lot, batch),
    }
}

/// Returns `true` if `session` obeys the audit rules. `plan` is the plan of its record, in the
/// batch `batch`.
pub(crate) fn is_audited_session(
    tables: &Tables,
    batch: &StoredBatch,
    plan: &RecordPlan<'_>,
    session: &StoredSession,
) -> bool
    requires ready { AreReady tables.now }
    requires plan { HasPlan tables.now session.now.batch session.now.place batch.now plan.now }
    ensures { IsTrue result ↔ IsAuditedSession tables.now session.now }
{
    let words = words_of(tables, session);
    let Some(card) = card_after(plan, words) else {
        return false;
    };
    if !is_sized(session, words.len()) {
        return false;
    }
    if !stands(session, state_of(plan, &card, session)) {
        return false;
    }
    if !is_at(session, &card.cursor) {
        return false;
    }
    is_for(tables, session, batch)
}
