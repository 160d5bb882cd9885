//! Reads the bytes of a connection as a request.
ghost use Rattle.std.specs.Prelude.{ℕ, List};
ghost use Rattle.http_messages.specs.Messages.{Agrees, as_parts};
ghost use Rattle.http_requests.specs.Asks.{asked_of};
ghost use Rattle.http_requests.specs.Meant.{IsMeant, IsMeantBy, meant_by};

use crate::ask::{AskFault, Asked, to_ask_by};
use crate::route::Routes;
use http_messages::{ByteSource, FixedReply, Message, Reading, read_message};
use std::alloc::Global;

/// The meaning of the bytes of a connection.
#[derive(Drop)]
pub enum Meaning {
    /// A complete message with a request.
    Asks(Asked),
    /// Bytes that ended before the message was complete.
    Broken,
    /// An invalid message or head, with its fixed response.
    Refused(FixedReply),
    /// A valid head, after which an allocation failed.
    Memory,
}

/// Reads one message and returns its meaning. Bytes after the message are ignored.
pub fn read_meaning<I: ByteSource>(routes: &mut Routes, alloc: Global, incoming: &mut I) -> Meaning
    ensures { (bytes : List ℕ) × Agrees (I.brings incoming.old) bytes × IsMeant bytes result }
{
    match read_message(alloc, incoming) {
        Reading::Message(message) => meaning_of(routes, alloc, message),
        Reading::Broken => Meaning::Broken,
        Reading::Refused(why) => Meaning::Refused(why),
        Reading::Memory => Meaning::Memory,
    }
}

fn meaning_of(routes: &mut Routes, alloc: Global, message: Message) -> Meaning
    ensures { IsMeantBy (meant_by (asked_of (as_parts message))) result }
{
    match to_ask_by(routes, alloc, message) {
        Ok(asked) => Meaning::Asks(asked),
        Err(AskFault::Refused(why)) => Meaning::Refused(why),
        Err(AskFault::Memory) => Meaning::Memory,
    }
}
