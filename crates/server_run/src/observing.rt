//! Serves one connection and observes it.
ghost use Rattle.std.specs.Prelude.{◌≡◌, is_some};
ghost use Rattle.std.specs.Io.KnownBytes.{Appends};
ghost use Rattle.http_messages.specs.Messages.{Agrees};
ghost use Rattle.job_facts.specs.Reopening.{counts_of};
ghost use Rattle.server.specs.Exchanges.{Exchange, IsMeaningOf, Serves};
ghost use Rattle.server_run.specs.Bytes.{KeepsRead, KeepsReply};
ghost use Rattle.server_run.specs.Observations.{IsObservationOf};

use crate::kept::{KeepingReader, KeepingWriter, Start};
use crate::observation::Observation;
use http_messages::ByteSource;
use http_requests::Routes;
use job_facts::ServerStore;
use server::serve_by;
use std::alloc::Global;
use std::io::Write;
use std::marker::Brand;

/// Serves one connection, and returns it with its observation. Observing allocates nothing.
pub fn serve_observed<S: ServerStore, I: ByteSource, W: Write>(
    routes: &mut Routes,
    alloc: Global,
    store: &mut S,
    incoming: I,
    writer: W,
) -> (I, W, Observation)
    ensures served { (e : Exchange) × Agrees (I.brings incoming) e.input
        × Appends (W.contents writer) (W.contents result.1) e.written
        × Serves (S.state store.old) (S.state store.new) e
        × IsObservationOf (is_some (I.brings incoming)) (is_some (W.contents writer)) e result.2 }
    ensures before { result.2.before ≡ counts_of (S.state store.old) }
    ensures after { result.2.after ≡ counts_of (S.state store.new) }
{
    serve_from::<S, I, W, Brand>(routes, alloc, store, incoming, writer)
}

// Serves one connection as `serve_observed` does. `K` names the state of its reader and writer at
// the start, so that the contract can describe the bytes since then.
fn serve_from<S: ServerStore, I: ByteSource, W: Write, K: Start>(
    routes: &mut Routes,
    alloc: Global,
    store: &mut S,
    incoming: I,
    writer: W,
) -> (I, W, Observation)
    requires brings { I.brings incoming ≡ K.brings }
    requires contents { W.contents writer ≡ K.contents }
    ensures served { (e : Exchange) × Agrees (I.brings incoming) e.input
        × Appends (W.contents writer) (W.contents result.1) e.written
        × (e.served ≡ result.2.served) × Serves (S.state store.old) (S.state store.new) e
        × IsMeaningOf result.2.meaning e.meant }
    ensures request { ∥ KeepsRead K.brings (I.brings result.0) result.2.request ∥₁ }
    ensures reply { ∥ KeepsReply result.2.served.end K.contents (W.contents result.1)
        result.2.reply ∥₁ }
    ensures before { result.2.before ≡ counts_of (S.state store.old) }
    ensures after { result.2.after ≡ counts_of (S.state store.new) }
{
    let before = store.fault_counts();
    let mut incoming = KeepingReader::<I, K>::new(incoming);
    let mut writer = KeepingWriter::<W, K>::new(writer);
    let (served, meaning) = serve_by(routes, alloc, store, &mut incoming, &mut writer);
    let (incoming, request) = incoming.into_parts();
    let (writer, reply) = writer.into_parts(served.end);
    let observation = Observation {
        request,
        reply,
        served,
        meaning,
        product: None,
        before,
        after: store.fault_counts(),
    };
    (incoming, writer, observation)
}
