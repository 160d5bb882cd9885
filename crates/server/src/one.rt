//! Serves one connection.
ghost use Rattle.std.specs.Prelude.{◌≡◌, ℕ, List};
ghost use Rattle.std.specs.Io.KnownBytes.{Appends};
ghost use Rattle.job_facts.specs.Requests.{IsArrival};
ghost use Rattle.arrivals.specs.HttpReplies.{http_reply};
ghost use Rattle.http_requests.specs.Asks.{IsInRange};
ghost use Rattle.http_messages.specs.Messages.{Agrees};
ghost use Rattle.http_requests.specs.declared.ask.Asked.TheVariants as asked;
ghost use Rattle.server.specs.Exchanges.{Exchange, IsMeaningOf, Serves};
ghost use Rattle.http_requests.specs.Meant.{Asks};
ghost use Rattle.server.specs.Replies.{IsWritten, http_reply_text};
ghost use Rattle.server.specs.Serving.{MayServe};

use crate::account::account_answer;
use crate::reply::{refuse, send};
use crate::served::{End, Served};
use http_messages::{ByteSource, Content, FixedReply};
use http_requests::{Asked, Meaning, Routes, Wanted, read_meaning};
use job_facts::{Arrival, JobStore};
use reply_store::{Kept, handle};
use std::alloc::Global;
use std::io::Write;

/// Serves one connection: reads a message, handles its request, and writes the response. Nothing is
/// allocated after an arrival has been handled, so a failed allocation can't replace its reply. If
/// the writer fails, only a prefix of the response is written, and a decided arrival stays decided.
///
/// Nothing is allocated before the head has passed its tests.
pub fn serve_one<S: JobStore, I: ByteSource, W: Write>(
    alloc: Global,
    store: &mut S,
    incoming: &mut I,
    writer: &mut W,
) -> Served
    ensures { (e : Exchange) × Agrees (I.brings incoming.old) e.input
        × Appends (W.contents writer.old) (W.contents writer.new) e.written
        × (e.served ≡ result) × Serves (S.state store.old) (S.state store.new) e }
{
    let (served, meaning) = serve_by(&mut Routes::new(), alloc, store, incoming, writer);
    drop(meaning);
    served
}

/// Serves one connection as `serve_one` does, with a router that many connections share. Also
/// returns the meaning of its bytes, which a cause of a refusal depends on.
pub fn serve_by<S: JobStore, I: ByteSource, W: Write>(
    routes: &mut Routes,
    alloc: Global,
    store: &mut S,
    incoming: &mut I,
    writer: &mut W,
) -> (Served, Meaning)
    ensures { (e : Exchange) × Agrees (I.brings incoming.old) e.input
        × Appends (W.contents writer.old) (W.contents writer.new) e.written
        × (e.served ≡ result.0) × Serves (S.state store.old) (S.state store.new) e
        × IsMeaningOf result.1 e.meant }
{
    match read_meaning(routes, alloc, incoming) {
        Meaning::Asks(asked) => {
            let served = serve_asked(alloc, store, &asked, writer);
            (served, Meaning::Asks(asked))
        }
        Meaning::Broken => (
            Served {
                end: End::Broken,
                decided: false,
            },
            Meaning::Broken,
        ),
        Meaning::Refused(why) => (refuse(writer, why), Meaning::Refused(why)),
        Meaning::Memory => (refuse(writer, FixedReply::Storage), Meaning::Memory),
    }
}

// Handles the request of a message.
fn serve_asked<S: JobStore, W: Write>(
    alloc: Global,
    store: &mut S,
    asked: &Asked,
    writer: &mut W,
) -> Served
    requires { IsInRange asked.now }
    ensures { (written : List ℕ) × Appends (W.contents writer.old) (W.contents writer.new) written
        × MayServe (Asks asked.now) (S.state store.old) (S.state store.new) result written }
{
    match asked {
        Asked::Arrival(arrival) => serve_arrival(alloc, store, arrival, writer),
        Asked::Account(wanted) => serve_account(alloc, store, *wanted, writer),
    }
}

// Handles an arrival and sends its reply.
fn serve_arrival<S: JobStore, W: Write>(
    alloc: Global,
    store: &mut S,
    arrival: &Arrival,
    writer: &mut W,
) -> Served
    requires { IsArrival arrival.now }
    ensures { (written : List ℕ) × Appends (W.contents writer.old) (W.contents writer.new) written
        × MayServe (Asks (asked.Arrival arrival.now)) (S.state store.old)
        (S.state store.new) result written }
{
    match handle(alloc, store, arrival) {
        Ok(kept) => Served {
            end: send_kept(writer, &kept),
            decided: true,
        },
        Err(_) => refuse(writer, FixedReply::Storage),
    }
}

fn send_kept<W: Write>(writer: &mut W, kept: &Kept) -> End
    ensures { (written : List ℕ) × Appends (W.contents writer.old) (W.contents writer.new) written
        × IsWritten result (http_reply_text (http_reply kept.now)) written }
{
    send(writer, kept.status, Content::Json, kept.body.as_slice())
}

// Sends an account or a report.
fn serve_account<S: JobStore, W: Write>(
    alloc: Global,
    store: &mut S,
    wanted: Wanted,
    writer: &mut W,
) -> Served
    ensures { (written : List ℕ) × Appends (W.contents writer.old) (W.contents writer.new) written
        × MayServe (Asks (asked.Account wanted)) (S.state store.old)
        (S.state store.new) result written }
{
    match account_answer(alloc, store, wanted) {
        Ok(answer) => Served {
            end: send(writer, answer.status, answer.kind, answer.body.as_slice()),
            decided: false,
        },
        Err(_) => refuse(writer, FixedReply::Storage),
    }
}
