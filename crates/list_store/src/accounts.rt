//! Computes the accounts of batches, records and blanks.
ghost use Rattle.std.specs.Prelude.{◌≡◌, ◌&&◌, bytes_eq, count_by, filter, find};
ghost use Rattle.std.specs.Prelude.{length, map, option_map, sum_by};
ghost use Rattle.job_facts.specs.declared.facts.Lot.{Lot as LotValue};
ghost use Rattle.job_facts.specs.Accounts.{batch_totals, blank_states, blank_totals, count_records};
ghost use Rattle.job_facts.specs.Accounts.{is_blank_of, is_lot_of, record_line, record_lines};
ghost use Rattle.job_facts.specs.Accounts.{record_states, session_states};
ghost use Rattle.job_facts.specs.Facts.{Session};
ghost use Rattle.job_facts.specs.States.{is_good, lot_of, record_state, session_state};
ghost use Rattle.list_store.specs.Results.{GivesOrMemory};
ghost use Rattle.list_store.specs.Sessions.{lots_for, sessions_of_record};

use crate::lists::{FactLists, KeptSession};
use crate::records::record_names;
use crate::sessions::session_state;
use crate::states::{count_sessions, record_state, states_among};
use job_facts::{
    BatchTotals, BlankTotals, Lot, RecordLine, RecordState, SessionState, StoreFault, lot_among,
};
use std::alloc::Global;
use store_data::Name;

// ---- a batch

// Returns the states of the records `names` of `batch`.
fn record_states(
    alloc: Global,
    facts: &FactLists,
    batch: &Name,
    names: &[Name],
) -> Result<Vec<RecordState>, StoreFault>
    ensures { GivesOrMemory result
        (λ states. states.items ≡ map (record_state facts.now batch.now) names.now) }
{
    let mut states = Vec::new(alloc);
    for rec in names {
        states.push(record_state(alloc, facts, batch, rec)?)?;
    }
    Ok(states)
}

// Returns the states of the sessions of `batch`.
fn session_states(
    alloc: Global,
    facts: &FactLists,
    sessions: &[KeptSession],
    batch: &Name,
) -> Result<Vec<SessionState>, StoreFault>
    ensures { GivesOrMemory result (λ states. states.items
        ≡ map (session_state facts.now)
        (filter (λ (s : Session). bytes_eq s.batch batch.now) sessions.now)) }
{
    let mut states = Vec::new(alloc);
    for session in sessions {
        if session.batch == *batch {
            states.push(session_state(alloc, facts, session)?)?;
        }
    }
    Ok(states)
}

// Returns the number of records with the state `state`.
fn count_records(states: &[RecordState], state: RecordState) -> u64
    ensures { result ≡ count_records states.now state }
{
    states.iter().filter(|other| **other == state).count() as u64
}

/// Returns the counters of `batch`.
#[tactic(auto, unfolding(job_facts::specs::Accounts::batch_totals, job_facts::specs::Accounts::record_states, job_facts::specs::Accounts::session_states))]
pub(crate) fn batch_totals(
    alloc: Global,
    facts: &FactLists,
    batch: &Name,
) -> Result<BatchTotals, StoreFault>
    ensures { GivesOrMemory result (λ totals. totals ≡ batch_totals facts.now batch.now) }
{
    let names = record_names(alloc, facts, batch)?;
    let records = record_states(alloc, facts, batch, &names)?;
    let sessions = session_states(alloc, facts, &facts.sessions, batch)?;
    Ok(BatchTotals {
        records: records.len() as u64,
        waiting: count_records(&records, RecordState::Waiting),
        running: count_records(&records, RecordState::Running),
        failed: count_records(&records, RecordState::Failed),
        withdrawn: count_records(&records, RecordState::Withdrawn),
        good: count_records(&records, RecordState::Good),
        sessions: sessions.len() as u64,
        spoiled: count_sessions(&sessions, SessionState::Spoiled),
    })
}

// ---- a record

// Returns the blank of the first good session of the record `rec`.
fn good_blank(
    alloc: Global,
    facts: &FactLists,
    sessions: &[KeptSession],
    batch: &Name,
    rec: &Name,
) -> Result<Option<u64>, StoreFault>
    ensures { GivesOrMemory result (λ blank. blank
        ≡ option_map (λ (s : Session). s.blank)
        (find (λ s. is_good (session_state facts.now s))
        (sessions_of_record sessions.now batch.now rec.now))) }
{
    for session in sessions {
        if session.batch == *batch
            && session.rec == *rec
            && session_state(alloc, facts, session)? == SessionState::Good
        {
            return Ok(Some(session.blank));
        }
    }
    Ok(None)
}

fn record_line(
    alloc: Global,
    facts: &FactLists,
    batch: &Name,
    rec: &Name,
) -> Result<RecordLine, StoreFault>
    ensures { GivesOrMemory result (λ line. line ≡ record_line facts.now batch.now rec.now) }
{
    let states = states_among(alloc, facts, &facts.sessions, batch, rec)?;
    Ok(RecordLine {
        rec: *rec,
        stands: record_state(alloc, facts, batch, rec)?,
        sessions: states.len() as u64,
        blank: good_blank(alloc, facts, &facts.sessions, batch, rec)?,
    })
}

/// Returns the lines of the records of `batch`, in file order.
#[tactic(auto, unfolding(job_facts::specs::Accounts::record_lines))]
pub(crate) fn record_lines(
    alloc: Global,
    facts: &FactLists,
    batch: &Name,
) -> Result<Vec<RecordLine>, StoreFault>
    ensures { GivesOrMemory result (λ lines. lines.items ≡ record_lines facts.now batch.now) }
{
    let names = record_names(alloc, facts, batch)?;
    let mut lines = Vec::new(alloc);
    for rec in &names {
        lines.push(record_line(alloc, facts, batch, rec)?)?;
    }
    Ok(lines)
}

// ---- the blanks of a product

fn is_blank_of(lots: &[Lot], product: &Name, blank: u64) -> bool
    ensures { result ≡ is_lot_of product.now (lot_of lots.now blank) }
{
    match lot_among(lots, blank) {
        None => false,
        Some(lot) => lot.product == *product,
    }
}

// Returns the states of the sessions whose blanks are in lots of `product`.
fn blank_states(
    alloc: Global,
    facts: &FactLists,
    sessions: &[KeptSession],
    product: &Name,
) -> Result<Vec<SessionState>, StoreFault>
    ensures { GivesOrMemory result (λ states. states.items
        ≡ map (session_state facts.now)
        (filter (λ (s : Session). is_blank_of facts.now product.now s.blank) sessions.now)) }
{
    let mut states = Vec::new(alloc);
    for session in sessions {
        if is_blank_of(&facts.lots, product, session.blank) {
            states.push(session_state(alloc, facts, session)?)?;
        }
    }
    Ok(states)
}

fn count_discarded(lots: &[Lot], product: &Name, discarded: &[u64]) -> u64
    ensures { result ≡ count_by
        (λ blank. is_lot_of product.now (lot_of lots.now blank)) discarded.now }
{
    discarded
        .iter()
        .filter(|blank| is_blank_of(lots, product, **blank))
        .count() as u64
}

fn count_lots(lots: &[Lot], product: &Name) -> u64
    ensures { result ≡ length (lots_for lots.now product.now) }
{
    lots.iter().filter(|lot| lot.product == *product).count() as u64
}

// Returns the number of blanks in the lots of `product`. A sum that exceeds 64 bits returns
// `Memory`. Sound facts have no such sum.
fn sum_lots(lots: &[Lot], product: &Name) -> Result<u64, StoreFault>
    ensures { GivesOrMemory result
        (λ total. total ≡ sum_by (λ (l : LotValue). l.count) (lots_for lots.now product.now)) }
{
    let mut total: u64 = 0;
    for lot in lots {
        if lot.product == *product {
            total = total
                .checked_add(u64::from(lot.count))
                .ok_or(StoreFault::Memory)?;
        }
    }
    Ok(total)
}

/// Returns the counters of the blanks of `product`.
#[tactic(auto, unfolding(job_facts::specs::Accounts::blank_totals, job_facts::specs::Accounts::blank_states))]
pub(crate) fn blank_totals(
    alloc: Global,
    facts: &FactLists,
    product: &Name,
) -> Result<BlankTotals, StoreFault>
    ensures { GivesOrMemory result (λ totals. totals ≡ blank_totals facts.now product.now) }
{
    let states = blank_states(alloc, facts, &facts.sessions, product)?;
    Ok(BlankTotals {
        lots: count_lots(&facts.lots, product),
        total: sum_lots(&facts.lots, product)?,
        good: count_sessions(&states, SessionState::Good),
        running: count_sessions(&states, SessionState::Running),
        spoiled: count_sessions(&states, SessionState::Spoiled),
        discarded: count_discarded(&facts.lots, product, &facts.discarded),
    })
}
