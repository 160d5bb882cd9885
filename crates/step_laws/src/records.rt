//! Lemmas about the states of records.
ghost use Rattle.std.specs.Prelude.{ℕ, List};
ghost use Rattle.job_facts.specs.declared.change.Change.{Change as ChangeValue};
ghost use Rattle.job_facts.specs.declared.request.Request.{Request as RequestValue};
ghost use Rattle.job_facts.specs.Facts.{Facts};
ghost use Rattle.job_facts.specs.Sound.{IsSound, IsSoundChange, changed};
ghost use Rattle.job_facts.specs.Steps.{step};
ghost use Rattle.step_laws.specs.Records.{OtherRecordsStand, OthersStandSame, TouchedStands};
ghost use Rattle.step_laws.specs.Records.{stands_after, stood_before};

/// Lemma: a request changes the state of no record except the one that its reply names.
pub fn one_record_alone_changes()
    ensures { (f : Facts) (client : List ℕ) (r : RequestValue) → IsSound f
        → OtherRecordsStand f (step f client r).0 (step f client r).1 }
{}

/// Lemma: a change affects at most one record. Before and after the change, this record has the
/// states that the change describes. Nothing changes for the other records.
pub fn one_record_alone_by_change()
    ensures others { (f : Facts) (change : ChangeValue) → IsSound f → IsSoundChange f change
        → OthersStandSame f change }
    ensures before { (f : Facts) (change : ChangeValue) → IsSound f → IsSoundChange f change
        → TouchedStands f f change (stood_before change) }
    ensures after { (f : Facts) (change : ChangeValue) → IsSound f → IsSoundChange f change
        → TouchedStands f (changed f change) change (stands_after change) }
{}
