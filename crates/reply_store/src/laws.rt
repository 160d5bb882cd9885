//! Lemmas about lists of arrivals and about crashes. The functions do nothing, and a caller gets
//! the contract as a fact.
ghost use Rattle.reply_store.specs.Days.{AreLeftByRuns};
ghost use Rattle.reply_store.specs.Runs.{AreLeftInTurn};
ghost use Rattle.reply_store.specs.Stops.{AreFoundWhole, AreLeftWithStops};

use job_facts::JobStore;

/// Lemma: the contents after a list of arrivals can be proved one arrival at a time.
pub fn left_in_turn<S: JobStore>()
    ensures { AreLeftInTurn S.state }
{
    arrivals::same_contents_answer_alike();
}

/// Lemma: if the server crashes at any point while it handles an arrival, opening the store again
/// succeeds and finds the contents before the arrival or after it. The store that is opened has
/// these contents, and the next crash leaves only these.
pub fn found_whole<S: JobStore>()
    ensures { AreFoundWhole S.state }
{}

/// Lemma: if the server crashes during some of a list of arrivals, and a store is opened after each
/// crash, the contents are those after all arrivals that got a reply and some of the others, in
/// their order. Only the order of sets may differ.
pub fn left_with_stops<S: JobStore>()
    ensures { AreLeftWithStops S.state }
{
    arrivals::same_contents_answer_alike();
}

/// Lemma: after any number of runs of a server, each of which tries any arrivals and ends at any
/// point, the store that is opened has the contents after all decided arrivals and at most one
/// other arrival of each run, in their order. Only the order of sets may differ.
pub fn left_by_runs<S: JobStore>()
    ensures { AreLeftByRuns S.state }
{
    arrivals::same_contents_answer_alike();
}
