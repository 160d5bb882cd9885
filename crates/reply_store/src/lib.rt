//! Handles requests so that each request number has one effect: the first request with a number is
//! decided, and a repeat gets the kept reply.
#![tactic(auto)]

ghost use Rattle.std.specs.Prelude.{◌≡◌, All, IfOk, OnErr, length, map};
ghost use Rattle.std.specs.List.{zip};
ghost use Rattle.arrivals.specs.Commands.{HandsOutNext};
ghost use Rattle.arrivals.specs.Meaning.{http_reply_again, reply_to};
ghost use Rattle.arrivals.specs.HttpReplies.{http_reply};
ghost use Rattle.job_facts.specs.Requests.{IsArrival};
ghost use Rattle.job_facts.specs.Contents.{Contents};
ghost use Rattle.job_facts.specs.Store.{CountsFaults, IsHonest};
ghost use Rattle.reply_store.specs.Handled.{Handles};
ghost use Rattle.reply_store.specs.Runs.{AreNext, Runs, arrived};

mod deciding;
pub mod laws;
mod settling;

use crate::deciding::decide_call;
use crate::settling::{http_reply_of, settle};
pub use arrivals::{Kept, body_of, name_text, status_of};
use job_facts::{Arrival, JobStore, KeptReply, Refusal, Reply, StoreFault};
use std::alloc::{AllocError, Global};

/// The outcome of an arrival: its response, or the fault of the store.
pub type Outcome = Result<Kept, StoreFault>;

#[tactic(auto, using(arrivals::proofs::Commands::call_hands_out_next))]
/// Handles one arrival.
///
/// - If its request number is released, the reply is `number-released`, and nothing is stored.
/// - If the number is used with the same request bytes, the kept reply is returned.
/// - If the number is used with different request bytes, the reply is `number-reused`, and nothing
///   is stored.
/// - If the number is new, the request is decided and its reply is kept, even if it is a refusal.
///
/// # Errors
///
/// Returns the faults of the store, and `Memory` if an allocation fails. The contents are unchanged
/// then, but a crash may still leave the arrival decided.
pub fn handle<S: JobStore>(
    alloc: Global,
    store: &mut S,
    arrival: &Arrival,
) -> Result<Kept, StoreFault>
    requires { IsArrival arrival.now }
    ensures handled { Handles (S.state store.old) (S.state store.new) (arrived arrival.now) result }
    // A command in the reply is the next one of its record (a lemma about the reference model).
    ensures next { (c : Contents) → (S.state store.old).holds c
        → HandsOutNext c.facts (reply_to c.facts c.marks (arrived arrival.now)) }
    ensures faults { CountsFaults (S.state store.old) (S.state store.new) result }
{
    let (client, number) = (&arrival.client, arrival.number);
    let mark = store.mark(client)?;
    if number <= mark {
        return Ok(http_reply_of(alloc, &Reply::NumberReleased { mark })?);
    }
    if let Some(kept) = store.kept(client, number)? {
        return Ok(again(alloc, arrival.ask.as_slice(), kept)?);
    }
    // The calls that store the reply require that the client is a name.
    store_data::laws::is_a_name(client);
    let (reply, effect) = decide_call(alloc, store, arrival, mark)?;
    settle(alloc, store, arrival, &reply, &effect)
}

/// Handles `arrivals` in order, and returns the outcome of each.
///
/// # Errors
///
/// Returns `AllocError` if the result can't be allocated. No arrival has been handled then, because
/// the result is allocated first.
pub fn run<S: JobStore>(
    alloc: Global,
    store: &mut S,
    arrivals: &[Arrival],
) -> Result<Vec<Outcome>, AllocError>
    requires { All IsArrival arrivals.now }
    ensures runs { IfOk result
        (λ outcomes. Runs (S.state store.old) (S.state store.new)
        (zip (map arrived arrivals.now) outcomes.items)) }
    ensures next { IfOk result
        (λ outcomes. IsHonest (S.state store.new) → (c : Contents) → (S.state store.old).holds c
        → AreNext c (zip (map arrived arrivals.now) outcomes.items)) }
    ensures count { IfOk result (λ outcomes. length outcomes.items ≡ length arrivals.now) }
    ensures err { OnErr result (store.new ≡ store.old) }
{
    arrivals::same_contents_answer_alike();
    let mut outcomes = Vec::with_capacity(alloc, arrivals.len())?;
    for arrival in arrivals {
        let outcome = handle(alloc, store, arrival);
        outcomes.push(outcome).unwrap();
    }
    Ok(outcomes)
}

// Returns the response to a request whose number is used.
fn again(alloc: Global, ask: &[u8], kept: KeptReply) -> Result<Kept, AllocError>
    ensures { IfOk result (λ k. http_reply k ≡ http_reply_again ask.now kept) }
{
    let KeptReply {
        ask: first,
        status,
        body,
    } = kept;
    if first.as_slice() == ask {
        return Ok(Kept { status, body });
    }
    let refusal = Refusal::NumberReused;
    http_reply_of(alloc, &Reply::Refused { refusal })
}
