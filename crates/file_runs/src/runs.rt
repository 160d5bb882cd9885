//! The contents that are possible after several runs of a server.
ghost use Rattle.file_runs.specs.Runs.{RunsGoOn};

use job_facts::JobStore;

/// Lemma: if a run of a server starts with contents that are possible after the runs before it,
/// then an open after a crash at its end isn't refused, and finds contents that are possible after
/// all these runs. These are the contents after all decided arrivals and at most one other arrival
/// of each run, in their order. Only the order of sets may differ.
pub fn runs_go_on<S: JobStore>()
    ensures { RunsGoOn S.state }
{
    arrivals::same_contents_answer_alike();
}
