//! Computes the states of records.
ghost use Rattle.std.specs.Prelude.{◌≡◌, ◌&&◌, count_by, filter};
ghost use Rattle.std.specs.Prelude.{map};
ghost use Rattle.std.specs.List.{list_any};
ghost use Rattle.job_facts.specs.Accounts.{count_sessions};
ghost use Rattle.list_store.specs.Sessions.{sessions_of_record};
ghost use Rattle.job_facts.specs.States.{first_waiting, is_batch_finished, is_record};
ghost use Rattle.job_facts.specs.States.{record_state, record_state_of};
ghost use Rattle.job_facts.specs.States.{session_state, state_by, states_of};
ghost use Rattle.list_store.specs.Results.{GivesOrMemory};

use crate::lists::{FactLists, KeptRecord, KeptSession};
use crate::records::{has_name, record_names};
use crate::sessions::session_state;
use job_facts::{RecordState, SessionState, StoreFault};
use std::alloc::Global;
use store_data::Name;

/// Returns the states of the sessions of the record `rec`.
pub(crate) fn states_among(
    alloc: Global,
    facts: &FactLists,
    sessions: &[KeptSession],
    batch: &Name,
    rec: &Name,
) -> Result<Vec<SessionState>, StoreFault>
    ensures { GivesOrMemory result
        (λ states. states.items
        ≡ map (session_state facts.now) (sessions_of_record sessions.now batch.now rec.now)) }
{
    let mut states = Vec::new(alloc);
    for session in sessions {
        if session.batch == *batch && session.rec == *rec {
            states.push(session_state(alloc, facts, session)?)?;
        }
    }
    Ok(states)
}

fn is_record(kept: &KeptRecord, batch: &Name, rec: &Name) -> bool
    ensures { result ≡ is_record batch.now rec.now kept.now }
{
    kept.batch == *batch && kept.rec == *rec
}

fn has_record(records: &[KeptRecord], batch: &Name, rec: &Name) -> bool
    ensures { result ≡ list_any (is_record batch.now rec.now) records.now }
{
    records.iter().any(|record| is_record(record, batch, rec))
}

// Returns how often `records` contains the record `rec`.
fn count_of(records: &[KeptRecord], batch: &Name, rec: &Name) -> u64
    ensures { result ≡ count_by (is_record batch.now rec.now) records.now }
{
    records
        .iter()
        .filter(|record| is_record(record, batch, rec))
        .count() as u64
}

/// Returns the number of sessions with the state `state`.
pub(crate) fn count_sessions(states: &[SessionState], state: SessionState) -> u64
    ensures { result ≡ count_sessions states.now state }
{
    states.iter().filter(|other| **other == state).count() as u64
}

fn state_by(states: &[SessionState], withdrawn: bool, remakes: u64) -> RecordState
    ensures { result ≡ state_by states.now withdrawn remakes }
{
    if states.contains(&SessionState::Good) {
        RecordState::Good
    } else if states.contains(&SessionState::Running) {
        RecordState::Running
    } else if withdrawn {
        RecordState::Withdrawn
    } else if remakes < count_sessions(states, SessionState::Spoiled) {
        RecordState::Failed
    } else {
        RecordState::Waiting
    }
}

/// Returns the state of the record `rec`.
#[tactic(auto, unfolding(job_facts::specs::States::record_state, job_facts::specs::States::states_of))]
pub(crate) fn record_state(
    alloc: Global,
    facts: &FactLists,
    batch: &Name,
    rec: &Name,
) -> Result<RecordState, StoreFault>
    ensures { GivesOrMemory result (λ state. state ≡ record_state facts.now batch.now rec.now) }
{
    let states = states_among(alloc, facts, &facts.sessions, batch, rec)?;
    let withdrawn = has_record(&facts.withdrawn, batch, rec);
    let remakes = count_of(&facts.remakes, batch, rec);
    Ok(state_by(&states, withdrawn, remakes))
}

/// Returns the state of the record `rec`, or `None` if the batch doesn't contain it.
#[tactic(auto, unfolding(job_facts::specs::States::record_state_of))]
pub(crate) fn record_state_of(
    alloc: Global,
    facts: &FactLists,
    batch: &Name,
    rec: &Name,
) -> Result<Option<RecordState>, StoreFault>
    ensures { GivesOrMemory result (λ state. state ≡ record_state_of facts.now batch.now rec.now) }
{
    let names = record_names(alloc, facts, batch)?;
    if has_name(&names, rec) {
        Ok(Some(record_state(alloc, facts, batch, rec)?))
    } else {
        Ok(None)
    }
}

/// Returns the first waiting record of `batch`, in file order.
#[tactic(auto, unfolding(job_facts::specs::States::first_waiting))]
pub(crate) fn first_waiting(
    alloc: Global,
    facts: &FactLists,
    batch: &Name,
) -> Result<Option<Name>, StoreFault>
    ensures { GivesOrMemory result (λ rec. rec ≡ first_waiting facts.now batch.now) }
{
    let names = record_names(alloc, facts, batch)?;
    for rec in &names {
        if record_state(alloc, facts, batch, rec)? == RecordState::Waiting {
            return Ok(Some(*rec));
        }
    }
    Ok(None)
}

/// Returns `true` if every record of `batch` is good or withdrawn.
#[tactic(auto, unfolding(job_facts::specs::States::is_batch_finished))]
pub(crate) fn is_batch_finished(
    alloc: Global,
    facts: &FactLists,
    batch: &Name,
) -> Result<bool, StoreFault>
    ensures { GivesOrMemory result (λ finished. finished ≡ is_batch_finished facts.now batch.now) }
{
    let names = record_names(alloc, facts, batch)?;
    for rec in &names {
        let state = record_state(alloc, facts, batch, rec)?;
        if !matches!(state, RecordState::Good | RecordState::Withdrawn) {
            return Ok(false);
        }
    }
    Ok(true)
}
