//! The meaning of arrivals, independent of a store: the response for a reply, and the contents
//! after a list of arrivals.
#![tactic(auto)]

ghost use Rattle.arrivals.specs.Laws.{AreAnsweredAlike, AreInTurn, RepeatsGetTheirReply};

mod body;
mod kept;

pub use body::{body_of, name_text, status_of};
pub use kept::Kept;

/// Lemma: the contents after a list of arrivals can be computed one arrival at a time. A function
/// that handles arrivals in a loop needs it for its proof.
pub fn in_turn()
    ensures { AreInTurn }
{}

/// Lemma: a repeat gets the same reply again, unless its number was released.
pub fn repeats_get_their_reply()
    ensures { RepeatsGetTheirReply }
{}

/// Lemma: contents that differ only in the order of sets and maps give the same replies. A store
/// can therefore have its sets in any order after a crash, and machines still get the same replies.
/// The lemma `step_laws::same_facts_answer_alike` states the same for accounts and reports.
pub fn same_contents_answer_alike()
    ensures { AreAnsweredAlike }
{
    step_laws::same_facts_answer_alike();
}
