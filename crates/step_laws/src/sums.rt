//! A lemma about the counts of a product's blanks.
ghost use Rattle.std.specs.Prelude.{◌≡◌, ℕ, List};
ghost use Rattle.job_facts.specs.declared.facts.SessionState.{SessionState as SessionStateValue};
ghost use Rattle.job_facts.specs.Accounts.{blank_states, count_sessions};
ghost use Rattle.job_facts.specs.Facts.{Facts};
ghost use Rattle.job_facts.specs.Sound.{IsSound};
ghost use Rattle.step_laws.specs.Sums.{AreBlankSums, sessions_by_batch};

/// Lemma: the sessions on the blanks of a product are the sessions of its batches, and its
/// discarded blanks are the discarded blanks of its lots. A store can therefore keep counters for
/// each batch and each lot instead of counting sessions.
pub fn blanks_by_batches()
    ensures states { (f : Facts) (p : List ℕ) (state : SessionStateValue) → IsSound f
        → count_sessions (blank_states f p) state ≡ sessions_by_batch f p state }
    ensures totals { (f : Facts) (p : List ℕ) → IsSound f → AreBlankSums f p }
{}
