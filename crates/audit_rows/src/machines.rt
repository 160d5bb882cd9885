//! Checks the machines of running sessions.
ghost use Rattle.std.specs.Prelude.{◌≡◌, ◌≤◌, ◌↔◌, ℕ, List, IfOk, IsTrue, count_by, filter, map};
ghost use Rattle.job_facts.specs.States.{is_running};
ghost use Rattle.table_rows.specs.Keys.{is_running_on};
ghost use Rattle.table_rows.specs.Tables.{StoredSession as SessionValue};

use crate::once::are_once;
use job_facts::SessionState;
use std::alloc::{AllocError, Global};
use table_rows::StoredSession;

// Returns `true` if the session is running.
fn runs(session: &StoredSession) -> bool
    ensures { result ≡ is_running session.now.state }
{
    matches!(session.state, SessionState::Running)
}

// Returns the machine of each running session.
fn running_machines(alloc: Global, sessions: &[StoredSession]) -> Result<Vec<&[u8]>, AllocError>
    ensures { IfOk result (λ names. map (λ name. name.now) names.items
        ≡ map (λ (s : SessionValue). s.machine)
        (filter (λ (s : SessionValue). is_running s.state) sessions.now)) }
{
    sessions
        .iter()
        .filter(|session| runs(session))
        .map(|session| session.machine.as_slice())
        .collect(alloc)
}

/// Returns `true` if no machine has two running sessions.
///
/// # Errors
///
/// Returns `AllocError` if an allocation fails.
pub(crate) fn run_once(alloc: Global, sessions: &[StoredSession]) -> Result<bool, AllocError>
    ensures { IfOk result (λ once. IsTrue once
        ↔ ((machine : List ℕ) → count_by (is_running_on machine) sessions.now ≤ 1)) }
{
    let machines = running_machines(alloc, sessions)?;
    are_once(alloc, &machines)
}
