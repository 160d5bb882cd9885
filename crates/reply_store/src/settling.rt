//! Stores the decision of a request with a new number.
ghost use Rattle.std.specs.Prelude.{◌≡◌, ◌<◌, ◌^◌, IfOk};
ghost use Rattle.arrivals.specs.HttpReplies.{body_of, http_reply, http_reply_of, status_of};
ghost use Rattle.arrivals.specs.Meaning.{entry_with};
ghost use Rattle.job_facts.specs.Kept.{kept_reply};
ghost use Rattle.job_facts.specs.Store.{Commits, CountsFaults, with_fault};
ghost use Rattle.reply_store.specs.Effects.{IsOwedBy, after_effect, done};
ghost use Rattle.reply_store.specs.Runs.{arrived};

use crate::deciding::Effect;
use arrivals::{Kept, body_of, status_of};
use job_facts::{Arrival, Entry, Failed, JobStore, Reply, StoreFault};
use std::alloc::{AllocError, Global};

/// Returns the response with `reply`.
///
/// # Errors
///
/// Returns `AllocError` if an allocation fails.
pub(crate) fn http_reply_of(alloc: Global, reply: &Reply) -> Result<Kept, AllocError>
    ensures status { IfOk result (λ k. k.status ≡ status_of reply.now) }
    ensures body { IfOk result (λ k. k.body ≡ body_of reply.now) }
    ensures value { IfOk result (λ k. http_reply k ≡ http_reply_of reply.now) }
{
    Ok(Kept {
        status: status_of(reply),
        body: body_of(alloc, reply)?,
    })
}

/// Stores the reply to `arrival`, whose request number is new, together with its effect, and returns
/// the response.
///
/// # Errors
///
/// Returns the faults of the store, and `Memory` if an allocation fails.
pub(crate) fn settle<S: JobStore>(
    alloc: Global,
    store: &mut S,
    arrival: &Arrival,
    reply: &Reply,
    effect: &Effect<'_>,
) -> Result<Kept, StoreFault>
    requires most { arrival.now.number < 10 ^ 18 }
    ensures commits { let entry = entry_with (arrived arrival.now) reply.now in
        Commits (S.state store.old) (S.state store.new) (done result) entry
        (IsOwedBy effect.now entry) (after_effect effect.now entry) }
    ensures value { IfOk result (λ k. http_reply k ≡ http_reply_of reply.now) }
    ensures faults { CountsFaults (S.state store.old) (S.state store.new) result }
{
    let kept = http_reply_of(alloc, reply)?;
    let entry = Entry {
        client: &arrival.client,
        number: arrival.number,
        ask: arrival.ask.as_slice(),
        status: kept.status,
        body: kept.body.as_slice(),
    };
    put(store, &entry, effect)?;
    Ok(kept)
}

fn put<S: JobStore>(store: &mut S, entry: &Entry<'_>, effect: &Effect<'_>) -> Result<(), StoreFault>
    requires most { entry.now.number < 10 ^ 18 }
    ensures commits { let kept = kept_reply entry.now in
        Commits (S.state store.old) (S.state store.new) result kept (IsOwedBy effect.now kept)
        (after_effect effect.now kept) }
    ensures faults { CountsFaults (S.state store.old) (S.state store.new) result }
{
    match effect {
        Effect::Changes { change } => fault_in(store.commit(entry, change)),
        Effect::Marks { upto } => fault_in(store.release(entry, *upto)),
    }
}

// Returns the result with only the reason of a failure. A store that keeps a request log will also
// need `undone`.
fn fault_in(stored: Result<(), Failed<StoreFault>>) -> Result<(), StoreFault>
    ensures { result ≡ with_fault stored }
{
    stored.map_err(|failed| failed.fault)
}
