//! Lemmas about sound facts.
ghost use Rattle.std.specs.Prelude.{◌≤◌, ℕ, List, length};
ghost use Rattle.job_facts.specs.declared.request.Request.{Request as RequestValue};
ghost use Rattle.job_facts.specs.Contents.{AreSameFacts};
ghost use Rattle.job_facts.specs.Facts.{Facts};
ghost use Rattle.job_facts.specs.Sound.{IsName, IsSound};
ghost use Rattle.job_facts.specs.Steps.{step};
ghost use Rattle.step_laws.specs.Alike.{AreAlike, HaveSameAccounts};
ghost use Rattle.step_laws.specs.Ranges.{IsRanged};

/// Lemma: sound facts are sound after any request in its ranges.
pub fn sound_facts_stay_sound()
    ensures { (f : Facts) (client : List ℕ) (r : RequestValue)
        → IsSound f → IsName client → IsRanged r → IsSound (step f client r).0 }
{}

/// Lemma: there are at most 4,096,000,000 sessions. Each session has its own blank, and the blanks
/// are in at most 4,096 lots with at most 1,000,000 blanks each.
pub fn sessions_are_few()
    ensures { (f : Facts) → IsSound f → length f.sessions ≤ 4096000000 }
{}

/// Lemma: facts that differ only in the order of their sets behave in the same way. A request gets
/// the same reply on both, and the facts after it again differ only in this order. Their accounts
/// are equal.
pub fn same_facts_answer_alike()
    ensures replies { (f g : Facts) (client : List ℕ) (r : RequestValue)
        → IsSound f → AreSameFacts f g → AreAlike (step f client r) (step g client r) }
    ensures accounts { (f g : Facts) → IsSound f → AreSameFacts f g → HaveSameAccounts f g }
{}
