//! Decides a request with a new number: its reply, and its effect on the store.
ghost use Rattle.std.specs.Prelude.{◌≡◌, ◌≤◌, ℕ, List};
ghost use Rattle.job_facts.specs.Contents.{Contents, mark_of};
ghost use Rattle.job_facts.specs.Requests.{IsCall};
ghost use Rattle.job_facts.specs.Store.{LeavesContents, Reads};
ghost use Rattle.job_facts.specs.declared.request.Call.TheVariants as call;
ghost use Rattle.reply_store.specs.Effects.{Decided};

use job_core::decide;
use job_facts::{Arrival, Call, Change, JobStore, Refusal, Reply, StoreFault};
use std::alloc::Global;

/// The effect of a request with a new number on the store.
#[derive(Clone, Copy)]
pub(crate) enum Effect<'a> {
    /// A change of the facts.
    Changes { change: Change<'a> },
    /// A new release mark of the client, which discards its kept replies up to the mark.
    Marks { upto: u64 },
}

/// Returns the reply to `arrival`, whose request number is new, and its effect. `mark` is the
/// client's release mark. The store is only read.
///
/// # Errors
///
/// Returns the faults of the store, and `Memory` if an allocation fails.
pub(crate) fn decide_call<'a, S: JobStore>(
    alloc: Global,
    store: &mut S,
    arrival: &'a Arrival,
    mark: u64,
) -> Result<(Reply, Effect<'a>), StoreFault>
    requires { IsCall arrival.now.request }
    ensures value { let a = arrival.now in Reads (S.state store.old) (S.state store.new) result
        (λ c answer. mark ≡ mark_of c.marks a.client
        → Decided c a.client a.number a.request answer.0 answer.1) }
    ensures leaves { LeavesContents (S.state store.old) (S.state store.new) result }
{
    match &arrival.request {
        Call::Job { request } => {
            let (reply, change) = decide(alloc, store, &arrival.client, request)?;
            Ok((reply, Effect::Changes { change }))
        }
        Call::Release { upto } => Ok(release(arrival.number, *upto, mark)),
    }
}

// Decides a release. It never lowers the client's release mark.
fn release(number: u64, upto: u64, mark: u64) -> (Reply, Effect<'static>)
    requires { 1 ≤ upto }
    ensures { (c : Contents) (client : List ℕ) → mark ≡ mark_of c.marks client
        → Decided c client number (call.Release upto) result.0 result.1 }
{
    if upto >= number {
        let refusal = Refusal::ReleaseTooFar;
        let change = Change::Nothing;
        return (Reply::Refused { refusal }, Effect::Changes { change });
    }
    let mark = if mark < upto { upto } else { mark };
    (Reply::Released { mark }, Effect::Marks { upto: mark })
}
