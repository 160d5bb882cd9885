//! Computes the state of a card from the status words of its session.
ghost use Rattle.std.specs.Prelude.{◌≡◌, ◌∷◌, ◌++◌, [], ℕ, List, false, IfSome, None, Some};
ghost use Rattle.std.specs.Prelude.{slice_get};
ghost use Rattle.store_data.specs.Cursor.{IsSegmentAt, cursor_at};
ghost use Rattle.store_data.specs.Sequence.{IsPlan, Plan, commands_of};
ghost use Rattle.job_facts.specs.Facts.{Session};
ghost use Rattle.job_facts.specs.Sound.{AreWords};
ghost use Rattle.job_facts.specs.States.{goes_at, is_tolerant, state_with};
ghost use Rattle.audit_cards.specs.Cards.{Leaves, status_words};

use job_facts::SessionState;
use store_data::{Class, Cursor, RecordPlan, SegmentView, class};
use table_rows::{StoredSession, StoredWord};

/// The state of a card after some status words of its session.
#[derive(Clone, Copy)]
pub(crate) struct Card {
    /// The cursor, at the command after the status words that let the session continue.
    pub(crate) cursor: Cursor,
    /// `true` if the last status word spoiled the session.
    pub(crate) stops: bool,
}

// Returns the state before the first status word.
fn new_card() -> Card
    ensures { (plan : Plan) → Leaves plan [] result.cursor result.stops }
{
    Card {
        cursor: Cursor::start(),
        stops: false,
    }
}

// Returns `true` if the command at `cursor` is the last of a tolerant segment.
fn is_tolerant(cursor: &Cursor, segment: &SegmentView<'_>, max: u8) -> bool
    ensures { (plan : Plan) (k : ℕ) → IsPlan plan → cursor_at plan k ≡ Some cursor.now
        → IsSegmentAt plan cursor.now segment.now → plan.max ≡ max
        → result ≡ is_tolerant (slice_get (commands_of plan) k) }
{
    let at_end = cursor.at_end(segment, max);
    segment.tol && at_end
}

// Returns `true` if the status word `sw` for the command at `cursor` lets the session continue.
fn goes(cursor: &Cursor, segment: &SegmentView<'_>, max: u8, sw: u16) -> bool
    ensures { (plan : Plan) (k : ℕ) → IsPlan plan → cursor_at plan k ≡ Some cursor.now
        → IsSegmentAt plan cursor.now segment.now → plan.max ≡ max
        → result ≡ goes_at (commands_of plan) k sw }
{
    class(sw, is_tolerant(cursor, segment, max)) == Class::Go
}

// Returns the state after the status word `sw`. Returns `None` if no status word may follow,
// because the last one spoiled the session or the plan has no command at the cursor.
fn after(plan: &RecordPlan<'_>, max: u8, card: &Card, sw: u16) -> Option<Card>
    requires plan { IsPlan plan.now }
    requires max { max ≡ plan.now.max }
    requires card { (words : List ℕ) × Leaves plan.now words card.now.cursor card.now.stops }
    ensures some { (words : List ℕ) → Leaves plan.now words card.now.cursor card.now.stops
        → IfSome result (λ next. Leaves plan.now (words ++ sw ∷ []) next.cursor next.stops) }
    ensures none { (words more : List ℕ) → Leaves plan.now words card.now.cursor card.now.stops
        → result ≡ None → AreWords (commands_of plan.now) (words ++ sw ∷ more) → ⊥ }
{
    if card.stops {
        return None;
    }
    let segment = plan.segment(card.cursor.app, card.cursor.segment)?;
    let mut cursor = card.cursor;
    if goes(&cursor, &segment, max, sw) {
        cursor.step_from(&segment, max);
        Some(Card {
            cursor,
            stops: false,
        })
    } else {
        Some(Card {
            cursor,
            stops: true,
        })
    }
}

/// Returns the state after the status words `words`. Returns `None` if there are more status words
/// than commands, or if a status word before the last spoils the session.
pub(crate) fn card_after(plan: &RecordPlan<'_>, words: &[StoredWord]) -> Option<Card>
    ensures some { IfSome result
        (λ card. Leaves plan.now (status_words words.now) card.cursor card.stops) }
    ensures none { result ≡ None
        → AreWords (commands_of plan.now) (status_words words.now) → ⊥ }
    ensures plan { IsPlan plan.now }
{
    let max = plan.max();
    let mut card = new_card();
    for word in words {
        card = after(plan, max, &card, word.sw)?;
    }
    Some(card)
}

// Returns the state of a session that can continue: `Running` if there is a command at `cursor`,
// otherwise `Good`.
fn state_at(plan: &RecordPlan<'_>, cursor: &Cursor) -> SessionState
    requires { IsPlan plan.now }
    ensures { (s : Session) → Leaves plan.now s.words cursor.now false → s.ended ≡ false
        → result ≡ state_with (commands_of plan.now) s }
{
    if plan.segment(cursor.app, cursor.segment).is_none() {
        SessionState::Good
    } else {
        SessionState::Running
    }
}

/// Returns the state of `session` whose status words leave the card in the state `card`.
pub(crate) fn state_of(plan: &RecordPlan<'_>, card: &Card, session: &StoredSession) -> SessionState
    requires { IsPlan plan.now }
    ensures { (s : Session) → Leaves plan.now s.words card.now.cursor card.now.stops
        → s.ended ≡ session.now.ended → result ≡ state_with (commands_of plan.now) s }
{
    if session.ended || card.stops {
        SessionState::Spoiled
    } else {
        state_at(plan, &card.cursor)
    }
}
