//! Lemmas about sessions.
ghost use Rattle.std.specs.Prelude.{◌≡◌, ◌≤◌, ◌+◌, ℕ, List, false, length};
ghost use Rattle.job_facts.specs.declared.request.Request.{Request as RequestValue};
ghost use Rattle.job_facts.specs.Facts.{Facts};
ghost use Rattle.job_facts.specs.Sound.{IsSound};
ghost use Rattle.job_facts.specs.Steps.{step};
ghost use Rattle.step_laws.specs.Later.{AnswersWithin, KnowsMore, Later, OtherSessionsStay};
ghost use Rattle.step_laws.specs.Later.{TakesInTurn};
ghost use Rattle.step_laws.specs.Later.{WordsWithin, is_on_session};

/// Lemma: a session only grows. It keeps its machine, record and blank. Status words are only
/// appended. A session that was ended stays ended, and a good or spoiled session never changes.
/// Other facts are added, but never changed or removed.
pub fn sessions_only_grow()
    ensures knows { (f : Facts) (client : List ℕ) (r : RequestValue)
        → KnowsMore f (step f client r).0 }
    ensures step { (f : Facts) (client : List ℕ) (r : RequestValue) → IsSound f
        → Later f (step f client r).0 }
    ensures none { (f : Facts) → Later f f }
    ensures more { (f g h : Facts) → Later f g → Later g h → Later f h }
{}

/// Lemma: a request changes no session of another client, and opens none for it. An `answer` adds
/// its status word only if its index is the next index of the session, and no other request adds a
/// status word.
pub fn only_its_machine_changes_a_session()
    ensures others { (f : Facts) (client : List ℕ) (r : RequestValue)
        → OtherSessionsStay client f (step f client r).0 }
    ensures all { (f : Facts) (client : List ℕ) (r : RequestValue) → is_on_session r ≡ false
        → (step f client r).0.sessions ≡ f.sessions }
    ensures least { (f : Facts) (client : List ℕ) (r : RequestValue)
        → length f.sessions ≤ length (step f client r).0.sessions }
    ensures most { (f : Facts) (client : List ℕ) (r : RequestValue)
        → length (step f client r).0.sessions ≤ length f.sessions + 1 }
    ensures turns { (f : Facts) (client : List ℕ) (r : RequestValue)
        → TakesInTurn r f (step f client r).0 }
    ensures words { (f : Facts) (client : List ℕ) (r : RequestValue) (most : ℕ → ℕ)
        → AnswersWithin most f r → WordsWithin most f → WordsWithin most (step f client r).0 }
{}
