//! The words for states in accounts and reports.
ghost use Rattle.std.specs.Prelude.{◌≡◌};
ghost use Rattle.reports.specs.Names.{closed_name, state_name};

use job_facts::RecordState;

/// Returns the word for the state of a record (this project's profile).
pub(crate) fn state_name(state: RecordState) -> &'static str
    ensures { result.now ≡ state_name state }
{
    match state {
        RecordState::Waiting => "waiting",
        RecordState::Running => "running",
        RecordState::Failed => "failed",
        RecordState::Withdrawn => "withdrawn",
        RecordState::Good => "good",
    }
}

/// Returns the word for the state of a batch in reports (this project's profile).
pub(crate) fn closed_name(is_closed: bool) -> &'static str
    ensures { result.now ≡ closed_name is_closed }
{
    if is_closed { "closed" } else { "open" }
}
