//! The state of a charged blank.
ghost use Rattle.std.specs.Prelude.{◌≡◌};
ghost use Rattle.book_lines.specs.Blanks.{stands_by, state_word};

use job_facts::SessionState;

/// The state of a charged blank.
#[derive(Clone, Copy, Debug, PartialEq, Eq)]
pub enum BlankState {
    /// A blank with a running session.
    Running,
    /// A finished card.
    Good,
    /// A spoiled card, which must be destroyed.
    Spoiled,
    /// A discarded blank. It was never a card, and must be destroyed.
    Discarded,
}

impl BlankState {
    /// Returns the word for the state in the output, such as `good`.
    pub fn word(self) -> &'static str
        ensures { result.now ≡ state_word self }
    {
        match self {
            BlankState::Running => "running",
            BlankState::Good => "good",
            BlankState::Spoiled => "spoiled",
            BlankState::Discarded => "discarded",
        }
    }
}

/// Returns the state of a blank whose session has the state `state`.
pub fn stands_by(state: SessionState) -> BlankState
    ensures { result ≡ stands_by state }
{
    match state {
        SessionState::Running => BlankState::Running,
        SessionState::Good => BlankState::Good,
        SessionState::Spoiled => BlankState::Spoiled,
    }
}
