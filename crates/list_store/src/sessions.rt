//! Finds sessions, and computes their states from their status words.
ghost use Rattle.std.specs.Prelude.{◌≡◌, IfErr, IfOk, IfSome, option_copied};
ghost use Rattle.std.specs.Prelude.{unwrap_or};
ghost use Rattle.store_data.specs.Cursor.{IsCursor};
ghost use Rattle.store_data.specs.Sequence.{commands_of, no_plan};
ghost use Rattle.job_facts.specs.declared.rows.SessionRow.{SessionRow as SessionRowValue};
ghost use Rattle.job_facts.specs.declared.store.StoreFault.TheVariants.{Memory};
ghost use Rattle.job_facts.specs.Rows.{session_row_of};
ghost use Rattle.job_facts.specs.States.{running_session, session_numbered, session_state};
ghost use Rattle.job_facts.specs.States.{state_with};
ghost use Rattle.list_store.specs.Results.{GivesOrMemory};
ghost use Rattle.list_store.specs.Sessions.{cursor_after};

use crate::cursors::{cursor_at, ends_at, going, last_stops};
use crate::lists::{FactLists, KeptSession};
use crate::records::{RecordRows, record_rows};
use job_facts::{SessionRow, SessionState, StoreFault};
use std::alloc::{AllocError, Global};
use store_data::{Cursor, Name, RecordPlan};

/// Returns the session with the number `number`. Numbers start at 1.
pub(crate) fn session_numbered(sessions: &[KeptSession], number: u64) -> Option<&KeptSession>
    ensures { option_copied result ≡ session_numbered sessions.now number }
{
    if number == 0 {
        return None;
    }
    sessions.get((number - 1) as usize)
}

// Returns the state of a session. `plan` is the plan of its record.
fn state_under(plan: &RecordPlan<'_>, session: &KeptSession) -> SessionState
    ensures { result ≡ state_with (commands_of plan.now) session.now }
{
    if session.ended || last_stops(plan, &session.words) {
        SessionState::Spoiled
    } else if ends_at(plan, session.words.len()) {
        SessionState::Good
    } else {
        SessionState::Running
    }
}

// Returns the cursor of a session. `plan` is the plan of its record.
fn cursor_under(plan: &RecordPlan<'_>, session: &KeptSession) -> Cursor
    ensures value { result ≡ cursor_after plan.now session.now }
    ensures ranged { IsCursor result }
{
    match cursor_at(plan, going(plan, &session.words)) {
        None => Cursor {
            app: 0,
            segment: 0,
            offset: 0,
            block: 0,
        },
        Some(cursor) => cursor,
    }
}

// Returns the plan of a record, or a plan without commands if its batch or product doesn't exist.
fn plan_or_none<'a>(
    alloc: Global,
    rows: &'a Option<RecordRows>,
) -> Result<RecordPlan<'a>, AllocError>
    ensures { IfOk result (λ plan. plan ≡ unwrap_or rows.now no_plan) }
{
    match rows {
        None => Ok(RecordPlan::empty(alloc)),
        Some(rows) => rows.plan(alloc),
    }
}

/// Returns the state of `session`.
pub(crate) fn session_state(
    alloc: Global,
    facts: &FactLists,
    session: &KeptSession,
) -> Result<SessionState, StoreFault>
    ensures { GivesOrMemory result (λ state. state ≡ session_state facts.now session.now) }
{
    let rows = record_rows(alloc, facts, &session.batch, &session.rec)?;
    let plan = plan_or_none(alloc, &rows)?;
    Ok(state_under(&plan, session))
}

/// Returns the session with the number `number`, with its state and its cursor.
#[tactic(auto, using(crate::proofs::SessionLemmas::state_under_plan, crate::proofs::SessionLemmas::cursor_under_plan))]
pub(crate) fn session_row_of(
    alloc: Global,
    facts: &FactLists,
    number: u64,
) -> Result<Option<SessionRow>, StoreFault>
    ensures value { IfOk result (λ row. row ≡ session_row_of facts.now number) }
    ensures ranged { IfOk result
        (λ row. IfSome row (λ (row : SessionRowValue). IsCursor row.cursor)) }
    ensures cause { IfErr result (λ fault. fault ≡ Memory) }
{
    let Some(session) = session_numbered(&facts.sessions, number) else {
        return Ok(None);
    };
    let rows = record_rows(alloc, facts, &session.batch, &session.rec)?;
    let plan = plan_or_none(alloc, &rows)?;
    Ok(Some(SessionRow {
        machine: session.machine,
        batch: session.batch,
        rec: session.rec,
        stands: state_under(&plan, session),
        words: session.words.len() as u64,
        cursor: cursor_under(&plan, session),
    }))
}

/// Returns the number of the running session of `machine`.
#[tactic(auto, unfolding(job_facts::specs::States::running_session))]
pub(crate) fn running_session(
    alloc: Global,
    facts: &FactLists,
    machine: &Name,
) -> Result<Option<u64>, StoreFault>
    ensures { GivesOrMemory result (λ number. number ≡ running_session facts.now machine.now) }
{
    for (place, session) in facts.sessions.iter().enumerate() {
        if session.machine == *machine
            && session_state(alloc, facts, session)? == SessionState::Running
        {
            return Ok(Some(place as u64 + 1));
        }
    }
    Ok(None)
}
