//! Lemmas about good cards: a good session stays good, and is the only one of its record and of its
//! blank.
ghost use Rattle.std.specs.Prelude.{◌≡◌, ◌<◌, ℕ, List, Some, length};
ghost use Rattle.job_facts.specs.declared.facts.RecordState.TheVariants as rec;
ghost use Rattle.job_facts.specs.declared.facts.SessionState.TheVariants as session;
ghost use Rattle.job_facts.specs.Facts.{Facts, Session};
ghost use Rattle.job_facts.specs.Sound.{IsSound};
ghost use Rattle.job_facts.specs.States.{commands_for, record_state, session_numbered};
ghost use Rattle.job_facts.specs.States.{session_state};
ghost use Rattle.step_laws.specs.Later.{Later};
ghost use Rattle.step_laws.specs.Records.{WordsGo};

/// Lemma: a good session is unchanged and good in all later facts. A good record stays good.
pub fn good_stays_good()
    ensures session { (f g : Facts) → Later f g → (s : ℕ) (x : Session)
        → session_numbered f.sessions s ≡ Some x → session_state f x ≡ session.Good
        → (session_numbered g.sessions s ≡ Some x) × (session_state g x ≡ session.Good) }
    ensures rec { (f g : Facts) → Later f g → (b r : List ℕ)
        → record_state f b r ≡ rec.Good → record_state g b r ≡ rec.Good }
{}

/// Lemma: a record has at most one good session.
pub fn record_has_one_good_session()
    ensures { (f : Facts) (s t : ℕ) (x y : Session) → IsSound f
        → session_numbered f.sessions s ≡ Some x → session_numbered f.sessions t ≡ Some y
        → session_state f x ≡ session.Good → session_state f y ≡ session.Good
        → y.batch ≡ x.batch → y.rec ≡ x.rec → s ≡ t }
{}

/// Lemma: a blank has at most one session.
pub fn blank_has_one_session()
    ensures { (f : Facts) (s t : ℕ) (x y : Session) → IsSound f
        → session_numbered f.sessions s ≡ Some x → session_numbered f.sessions t ≡ Some y
        → x.blank ≡ y.blank → s ≡ t }
{}

/// Lemma: a good session has a status word for each command of its record, and every status word
/// lets the session continue. In a running session, every status word lets the session continue,
/// and at least one command is left.
pub fn words_of_good_sessions_go()
    ensures good { (f : Facts) (s : ℕ) (x : Session) → IsSound f
        → session_numbered f.sessions s ≡ Some x → session_state f x ≡ session.Good
        → (length x.words ≡ length (commands_for f x.batch x.rec)) × WordsGo f x }
    ensures running { (f : Facts) (s : ℕ) (x : Session) → IsSound f
        → session_numbered f.sessions s ≡ Some x → session_state f x ≡ session.Running
        → (length x.words < length (commands_for f x.batch x.rec)) × WordsGo f x }
{}
