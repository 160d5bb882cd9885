//! Runs a feed: sends requests and processes cards until the list ends.
ghost use Rattle.std.specs.Prelude.{◌≡◌, ◌≤◌, ◌<◌, ◌^◌, ◌∷◌, ◌++◌, [], List, None};
ghost use Rattle.std.specs.Prelude.{IfOk, if◌then◌else◌, option_map};
ghost use Rattle.wire.specs.Sending.{IsSendable, sending_of};
ghost use Rattle.feeder.specs.Table.{asked};
ghost use Rattle.feeding.specs.Events.{FeedEndsWithEvents, GoesWithEvents, IsNoted, IsNotedOf};
ghost use Rattle.feeding.specs.Events.{end_texts, lines_under};
ghost use Rattle.feeding.specs.Feeds.{at_first, hears};
ghost use Rattle.feeding.specs.Tries.{FeedEnds, Heard, IsEnd, IsHeard, IsPrinted, IsSettled};
ghost use Rattle.feeding.specs.Tries.{try_of};
ghost use Rattle.feeding.specs.Views.{AsksUnder, came_in, feed_view};

use crate::events::{Tried, note_flaw};
use crate::exchange::Exchange;
use crate::feed::{Feed, MachineStart};
use event_lines::{EventLog, Level};
use feeder::Stand;
use job_facts::{Call, Reply};
use std::alloc::{AllocError, Global};
use std::error::Error;
use std::fmt;
use std::io::{self, Read, Write};
use store_data::Name;
use text_io::{RunStop, lines_of, read_whole, write_text};
use wire::{parse_reply, request_text};

/// The maximum number of consecutive tries that change nothing.
const MOST_TRIES: u32 = 10;

/// A fault that only a feed has.
#[derive(Clone, Copy, Debug, PartialEq, Eq)]
pub enum FeedFault {
    /// A line is malformed: refusal 400.
    BadLine,
    /// A later boot of the machine released these request numbers: refusal 73.
    Stale,
    /// Ten consecutive tries brought no reply that changed anything.
    NoReply,
}

impl fmt::Display for FeedFault {
    ghost use Rattle.std.specs.Prelude.{Some};
    ghost use Rattle.feeding.specs.Tries.{fault_text};

    ghost output = { λ fault. Some (fault_text fault) };

    fn fmt<W: fmt::Write>(&self, f: &mut fmt::Formatter<W>) -> fmt::Result {
        match self {
            FeedFault::BadLine => f.write_str("a line is malformed"),
            FeedFault::Stale => f.write_str("the boot is released"),
            FeedFault::NoReply => f.write_str("no reply came"),
        }
    }
}

impl Error for FeedFault {}

/// A reason why a feed stopped.
pub type FeedStop = RunStop<FeedFault>;

/// Processes the cards of `reader` as the machine of `start`, one after another. Every request is
/// sent on its own connection of `exchange`.
///
/// A line of `reader` is a card: its serial number and its status words, `SERIAL SW SW ..`. Once
/// they are used up the card returns 9000. For each command that a card receives `SERIAL HEX SW` is
/// written to `writer`, and at its end `SERIAL good` or `SERIAL rejected` (this project's profile).
/// A card is rejected if the boot has too few request numbers left for it.
///
/// The input is read completely at first. Output is written as soon as it is known; the caller
/// flushes `writer`.
///
/// # Errors
///
/// - `BadLine`: a line is malformed. All cards before it were processed.
/// - `Stale`: a later boot of the machine released these request numbers.
/// - `NoReply`: ten consecutive tries changed nothing.
/// - `ReadFailed`, `WriteFailed`: a read or a write fails.
/// - `Memory`: an allocation fails.
pub fn feed_engine<R: Read, W: Write, X: Exchange>(
    alloc: Global,
    start: MachineStart,
    reader: &mut R,
    writer: &mut W,
    exchange: &mut X,
) -> Result<(), FeedStop>
    requires least { 1 ≤ start.boot }
    requires most { start.boot ≤ 9999999999 }
    ensures { FeedEnds (at_first start.machine start.boot start.batch) (R.remaining reader.old)
        (X.log exchange.old) (X.log exchange.new) (W.contents writer.old)
        (W.contents writer.new) result }
{
    let mut events = EventLog::new(Level::Off, io::sink());
    feed_with_events(alloc, start, reader, writer, exchange, &mut events)
}

/// Does the same as `feed_engine`, and writes event lines to `events`: for each rejected card the
/// request number and the code of the refusal or another cause, for each try that changed nothing
/// the response, and for a malformed line its number and its flaw. The event lines of a try are
/// written before its output, but no contract states this order. Event lines that can't be written
/// are ignored.
///
/// # Errors
///
/// The same as for `feed_engine`.
pub fn feed_with_events<R: Read, W: Write, X: Exchange, E: Write + Drop>(
    alloc: Global,
    start: MachineStart,
    reader: &mut R,
    writer: &mut W,
    exchange: &mut X,
    events: &mut EventLog<E>,
) -> Result<(), FeedStop>
    requires least { 1 ≤ start.boot }
    requires most { start.boot ≤ 9999999999 }
    ensures { FeedEndsWithEvents E.contents (at_first start.machine start.boot start.batch)
        (R.remaining reader.old) (X.log exchange.old) (X.log exchange.new)
        (W.contents writer.old) (W.contents writer.new) events.old events.new result }
{
    let raw = read_whole(alloc, reader)?;
    let lines = lines_of(alloc, raw.as_slice())?;
    let mut feed = Feed::new(alloc, start, lines.as_slice());
    feed_all(alloc, &mut feed, writer, exchange, events)
}

// Sends requests until no request is pending.
fn feed_all<W: Write, X: Exchange, E: Write + Drop>(
    alloc: Global,
    feed: &mut Feed<'_>,
    writer: &mut W,
    exchange: &mut X,
    events: &mut EventLog<E>,
) -> Result<(), FeedStop>
    requires tries { feed.old.tries ≤ 10 }
    requires settled { IsSettled (feed_view feed.old) }
    ensures { (hs : List Heard) × GoesWithEvents E.contents (feed_view feed.old) hs
        (X.log exchange.old) (X.log exchange.new) (W.contents writer.old) (W.contents writer.new)
        events.old events.new result }
{
    while let Some((number, call)) = feed.feeder.ask() {
        if feed.tries >= MOST_TRIES {
            return Err(RunStop::Own(FeedFault::NoReply));
        }
        let response = one_try(alloc, feed.feeder.machine(), number, call, exchange)?;
        go_on(alloc, feed, number, response, writer, events)?;
    }
    end(alloc, feed, events)
}

// Continues after a try, and writes its event lines and its output.
fn go_on<W: Write, E: Write + Drop>(
    alloc: Global,
    feed: &mut Feed<'_>,
    number: u64,
    response: Response,
    writer: &mut W,
    events: &mut EventLog<E>,
) -> Result<(), FeedStop>
    requires few { feed.old.tries < 10 }
    requires asks { AsksUnder number (feed_view feed.old) }
    ensures printed { IsPrinted (hears (feed_view feed.old) response.reply) (feed_view feed.new)
        (W.contents writer.old) (W.contents writer.new) result }
    ensures noted { IsNotedOf E.contents events.old events.new
        (lines_under (feed_view feed.old) number (came_in response) response.reply) result }
{
    let Response { came, reply } = response;
    let came = kept(came, events.is_on());
    let serial = feed.card.serial;
    let rejected = feed.hear(alloc, number, reply.as_ref())?;
    let tried = Tried {
        number,
        serial,
        came: came.as_deref(),
        reply: reply.as_ref(),
        rejected,
        tries: feed.tries,
    };
    tried.note(alloc, events);
    write_text(writer, feed.text.as_slice())?;
    Ok(())
}

// Keeps the received bytes only if event lines need them.
fn kept(came: Option<Vec<u8>>, is_wanted: bool) -> Option<Vec<u8>>
    ensures { result ≡ (if is_wanted then came else None) }
{
    came.filter(|_| is_wanted)
}

// The bytes that came back, if any, and the reply that they contain, if they are one.
#[derive(Drop)]
struct Response {
    came: Option<Vec<u8>>,
    reply: Option<Reply>,
}

// Sends a request and reads the response.
fn one_try<X: Exchange>(
    alloc: Global,
    machine: &Name,
    number: u64,
    call: &Call,
    exchange: &mut X,
) -> Result<Response, AllocError>
    requires least { 1 ≤ number }
    requires most { number < 10 ^ 18 }
    requires sendable { IsSendable call.now }
    ensures heard { IfOk result (λ r. IsHeard (came_in r) r.reply) }
    ensures logged { IfOk result (λ r. X.log exchange.new ≡ option_map
        (λ l. l ++ try_of (sending_of machine.now number call.now) r.came ∷ [])
        (X.log exchange.old)) }
{
    let message = request_text(alloc, machine, number, call)?;
    let came = exchange.exchange(message.as_slice())?;
    let reply = reply_in(alloc, came.as_deref())?;
    Ok(Response { came, reply })
}

// Parses a reply that consists of all received bytes.
fn reply_in(alloc: Global, came: Option<&[u8]>) -> Result<Option<Reply>, AllocError>
    ensures { IfOk result (λ reply. IsHeard (option_map (λ b. b.now) came.entry) reply) }
{
    match came {
        Some(bytes) => parse_reply(alloc, bytes),
        None => Ok(None),
    }
}

// Ends the feed: no request is pending and no card is inserted.
fn end<E: Write + Drop>(
    alloc: Global,
    feed: &Feed<'_>,
    events: &mut EventLog<E>,
) -> Result<(), FeedStop>
    requires asks { asked (feed_view feed.now).feeder ≡ None }
    requires settled { IsSettled (feed_view feed.now) }
    ensures is { IsEnd (feed_view feed.now) result }
    ensures noted { IsNoted E.contents events.old events.new
        (end_texts (feed_view feed.now) result) }
{
    match feed.feeder.stand() {
        Stand::Idle => {
            if feed.at < feed.lines.len() {
                note_flaw(alloc, feed.at as u64 + 1, feed.lines[feed.at], events);
                Err(RunStop::Own(FeedFault::BadLine))
            } else {
                Ok(())
            }
        }
        _ => Err(RunStop::Own(FeedFault::Stale)),
    }
}
