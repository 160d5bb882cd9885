//! Finds out whether a blank is charged.
ghost use Rattle.std.specs.Prelude.{◌≡◌, ◌==◌};
ghost use Rattle.std.specs.List.{list_any};
ghost use Rattle.job_facts.specs.Facts.{Session};
ghost use Rattle.job_facts.specs.States.{is_charged};

use crate::lists::{FactLists, KeptSession};

pub(crate) fn is_charged(facts: &FactLists, blank: u64) -> bool
    ensures { result ≡ is_charged facts.now blank }
{
    is_opened(&facts.sessions, blank) || is_discarded(&facts.discarded, blank)
}

fn is_opened(sessions: &[KeptSession], blank: u64) -> bool
    ensures { result ≡ list_any (λ (s : Session). s.blank == blank) sessions.now }
{
    sessions.iter().any(|session| session.blank == blank)
}

fn is_discarded(discarded: &[u64], blank: u64) -> bool
    ensures { result ≡ list_any (λ b. b == blank) discarded.now }
{
    discarded.iter().any(|b| *b == blank)
}
