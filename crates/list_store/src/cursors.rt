//! Finds the position of a card in its plan, and the effect of its status words.
ghost use Rattle.std.specs.Prelude.{◌≡◌, ◌==◌, IfSome, length, slice_get};
ghost use Rattle.store_data.specs.Cursor.{IsCursor, cursor_at};
ghost use Rattle.store_data.specs.Sequence.{IsPlan, commands_of};
ghost use Rattle.job_facts.specs.States.{going, is_tolerant, last_stops};

use store_data::{Class, Cursor, RecordPlan, class};

/// Returns the cursor after `count` commands of the plan. Returns `None` if the plan has fewer
/// commands.
pub(crate) fn cursor_at(plan: &RecordPlan<'_>, count: usize) -> Option<Cursor>
    ensures value { result ≡ cursor_at plan.now count }
    ensures ranged { IfSome result IsCursor }
    ensures plan { IsPlan plan.now }
{
    let max = plan.max();
    let mut cursor = Cursor::start();
    for _place in 0..count {
        let segment = plan.segment(cursor.app, cursor.segment)?;
        cursor.step_from(&segment, max);
    }
    Some(cursor)
}

/// Returns `true` if the plan has exactly `count` commands.
pub(crate) fn ends_at(plan: &RecordPlan<'_>, count: usize) -> bool
    ensures { result ≡ (count == length (commands_of plan.now)) }
{
    match cursor_at(plan, count) {
        None => false,
        Some(cursor) => plan.segment(cursor.app, cursor.segment).is_none(),
    }
}

// Returns `true` if the command at index `place` is the last of a tolerant segment.
fn is_tolerant(plan: &RecordPlan<'_>, place: usize) -> bool
    ensures { result ≡ is_tolerant (slice_get (commands_of plan.now) place) }
{
    match cursor_at(plan, place) {
        None => false,
        Some(cursor) => match plan.segment(cursor.app, cursor.segment) {
            None => false,
            Some(segment) => {
                let at_end = cursor.at_end(&segment, plan.max());
                segment.tol && at_end
            }
        },
    }
}

/// Returns `true` if the last status word spoils the session.
pub(crate) fn last_stops(plan: &RecordPlan<'_>, words: &[u16]) -> bool
    ensures { result ≡ last_stops (commands_of plan.now) words.now }
{
    if words.is_empty() {
        return false;
    }
    let place = words.len() - 1;
    class(words[place], is_tolerant(plan, place)) == Class::Stop
}

/// Returns the number of status words that let the session continue.
pub(crate) fn going(plan: &RecordPlan<'_>, words: &[u16]) -> usize
    ensures { result ≡ going (commands_of plan.now) words.now }
{
    if last_stops(plan, words) {
        words.len() - 1
    } else {
        words.len()
    }
}
