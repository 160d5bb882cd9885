//! The decisions: the reply to each request, and the change to the facts.
//!
//! A decision reads what its refusals depend on, in the order of the refusals, and then decides
//! over plain values.
mod commands;
mod products;
mod records;
mod sessions;

ghost use Rattle.std.specs.Prelude.{◌≡◌};
ghost use Rattle.job_facts.specs.Requests.{IsRequest};
ghost use Rattle.job_facts.specs.Sound.{Decides};
ghost use Rattle.job_facts.specs.Store.{LeavesContents, Reads};
ghost use Rattle.job_facts.specs.declared.change.Change.TheVariants.{Nothing};
ghost use Rattle.job_facts.specs.declared.reply.Reply.TheVariants.{Refused};

use self::products::BatchFile;
use self::sessions::StatusWord;
use job_facts::{Change, JobStore, Refusal, Reply, Request, StoreFault};
use std::alloc::Global;
use store_data::Name;

/// A reply, and the change that the request makes to the facts.
pub(crate) type Decision<'a> = (Reply, Change<'a>);

/// Decides the request of `client` by the reference model: returns its reply and its change. Reads
/// from the store, but doesn't write.
///
/// # Errors
///
/// - `Memory` if an allocation fails.
/// - `Device` or `Full` if the store returns this fault.
pub fn decide<'a, S: JobStore>(
    alloc: Global,
    store: &mut S,
    client: &Name,
    request: &'a Request,
) -> Result<(Reply, Change<'a>), StoreFault>
    requires { IsRequest request.now }
    ensures value { Reads (S.state store.old) (S.state store.new) result
        (λ c answer. Decides c.facts client.now request.now answer.0 answer.1) }
    ensures leaves { LeavesContents (S.state store.old) (S.state store.new) result }
{
    match request {
        Request::Product { product } => products::product(store, client, product),
        Request::Lot { lot } => products::lot(store, client, lot),
        Request::Import {
            batch,
            product,
            raw,
        } => {
            let file = BatchFile {
                batch: *batch,
                product: *product,
                raw: raw.as_slice(),
            };
            products::import(alloc, store, client, &file)
        }
        Request::Open { batch, blank } => sessions::open(alloc, store, client, batch, *blank),
        Request::Answer { session, index, sw } => {
            let (session, index, sw) = (*session, *index, *sw);
            sessions::answer(alloc, store, client, StatusWord { session, index, sw })
        }
        Request::Abort { session } => sessions::abort(store, client, *session),
        Request::Reset => sessions::reset(store, client),
        Request::Discard { blank } => records::discard(store, client, *blank),
        Request::Remake { batch, rec } => records::remake(store, client, batch, rec),
        Request::Withdraw { batch, rec } => records::withdraw(store, client, batch, rec),
        Request::Close { batch } => records::close(store, client, batch),
    }
}

// Returns a refusal without a change.
fn refused(refusal: Refusal) -> Decision<'static>
    ensures { result ≡ (Refused refusal, Nothing) }
{
    (Reply::Refused { refusal }, Change::Nothing)
}
