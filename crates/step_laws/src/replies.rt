//! Lemmas about replies.
ghost use Rattle.std.specs.Prelude.{ℕ, List};
ghost use Rattle.job_facts.specs.declared.request.Request.{Request as RequestValue};
ghost use Rattle.job_facts.specs.Facts.{Facts};
ghost use Rattle.job_facts.specs.Sound.{IsSound};
ghost use Rattle.job_facts.specs.Steps.{step};
ghost use Rattle.step_laws.specs.Ranges.{IsRanged, IsRangedReply};
ghost use Rattle.step_laws.specs.Replies.{MayGetReply, Says};

/// Lemma: a reply matches its request, and contains the names and numbers of the request.
pub fn replies_are_to_requests()
    ensures { (f : Facts) (client : List ℕ) (r : RequestValue)
        → MayGetReply r (step f client r).1 }
{}

/// Lemma: a reply is true of the facts after its request. This covers the session that it names
/// with its record and its next command, and everything that was created, discarded, withdrawn or
/// closed. A refusal leaves the facts unchanged.
pub fn replies_state_the_facts()
    ensures { (f : Facts) (client : List ℕ) (r : RequestValue) → IsSound f
        → Says f (step f client r).0 client (step f client r).1 }
{}

/// Lemma: the reply to a request in its ranges is in its own ranges. Names in it are names, a
/// command consists of bytes, and no number exceeds the maximum that sound facts allow.
pub fn replies_are_in_range()
    ensures { (f : Facts) (client : List ℕ) (r : RequestValue) → IsSound f → IsRanged r
        → IsRangedReply (step f client r).1 }
{}
