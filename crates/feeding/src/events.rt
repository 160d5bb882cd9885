//! The event lines of a feed.
ghost use Rattle.std.specs.Prelude.{◌≡◌, ◌==◌, ◌||◌, ◌++◌, IfOk, IfSome, Some, map};
ghost use Rattle.std.specs.Prelude.{option_map, position};
ghost use Rattle.event_lines.specs.Views.{text_of};
ghost use Rattle.feeding.specs.Events.{IsNoted, again_line, came_pair, cards_in, exhausted_line};
ghost use Rattle.feeding.specs.Events.{first_line, flaw_line, flaw_lines, lines_with, refusal_in};
ghost use Rattle.feeding.specs.Events.{refusal_lines, refused_line, rejected, rejection_lines};
ghost use Rattle.feeding.specs.Events.{spoiled_line, used_line};
ghost use Rattle.feeding.specs.Cards.{card_of};
ghost use Rattle.feeding.specs.Flaws.{flaw_of};

use crate::card::card_of;
use crate::feed::{Rejected, Rejection};
use crate::flaw::{Flaw, flaw_of};
use event_lines::{EventLine, EventLog};
use job_facts::{MACHINE_BUSY, NUMBER_RELEASED, Refusal, Reply};
use std::alloc::{AllocError, Global};
use std::io::Write;

/// The maximum number of bytes of a response's first line that are written.
const MOST_OF_LINE: usize = 100;

/// A try: its request, the response, and the effect.
#[derive(Drop)]
pub(crate) struct Tried<'a> {
    /// The request number.
    pub(crate) number: u64,
    /// The serial number of the inserted card.
    pub(crate) serial: u64,
    /// The received bytes, if any.
    pub(crate) came: Option<&'a [u8]>,
    /// The reply that they contain, if they are one.
    pub(crate) reply: Option<&'a Reply>,
    /// The rejected cards.
    pub(crate) rejected: Rejected<'a>,
    /// The number of consecutive tries that changed nothing.
    pub(crate) tries: u32,
}

impl Tried<'_> {
    /// Writes the event lines of a try.
    pub(crate) fn note<E: Write + Drop>(&self, alloc: Global, events: &mut EventLog<E>)
        ensures { IsNoted E.contents events.old events.new (lines_with self.now.serial
            self.now.number (option_map (λ b. b.now) self.now.came)
            (option_map (λ r. r.now) self.now.reply) self.now.rejected.card
            (cards_in (map (λ l. l.now) self.now.rejected.lines.now)) self.now.tries) }
    {
        if !events.is_on() {
            return;
        }
        self.note_rejection(alloc, events);
        note_without_numbers(alloc, self.rejected.lines, events);
        if self.tries > 0 {
            events.note(again_line(alloc, self.number, self.tries, self.came));
        }
    }

    // Writes the event lines of the inserted card if it was rejected.
    fn note_rejection<E: Write + Drop>(&self, alloc: Global, events: &mut EventLog<E>)
        ensures { IsNoted E.contents events.old events.new (rejection_lines self.now.serial
            self.now.number (option_map (λ r. r.now) self.now.reply) self.now.rejected.card) }
    {
        let Some(how) = self.rejected.card else {
            return;
        };
        match how {
            Rejection::Exhausted => events.note(exhausted_line(alloc, self.serial)),
            Rejection::ByReply => {
                if let Some(reply) = self.reply {
                    note_refusal(alloc, self.serial, self.number, reply, events);
                }
            }
        }
    }
}

// Writes the event lines of a card that was rejected because of a reply.
fn note_refusal<E: Write + Drop>(
    alloc: Global,
    serial: u64,
    number: u64,
    reply: &Reply,
    events: &mut EventLog<E>,
)
    ensures { IsNoted E.contents events.old events.new
        (refusal_lines serial number (refusal_in reply.now)) }
{
    let Some((code, name)) = refusal_in(reply) else {
        events.note(spoiled_line(alloc, serial, number));
        return;
    };
    events.note(refused_line(alloc, serial, number, code, name));
    if code == Refusal::NumberReused.code() {
        events.note(used_line(alloc, number));
    }
}

// Writes an event line for each card in `lines`, up to a malformed line.
fn note_without_numbers<E: Write + Drop>(alloc: Global, lines: &[&[u8]], events: &mut EventLog<E>)
    ensures { IsNoted E.contents events.old events.new
        (map (λ c. exhausted_line c.serial) (cards_in (map (λ l. l.now) lines.now))) }
{
    for line in lines {
        let Some(serial) = serial_in(alloc, line) else {
            return;
        };
        events.note(exhausted_line(alloc, serial));
    }
}

// Returns the serial number of the card in `line`, or `None` if the line is malformed or an
// allocation fails.
fn serial_in(alloc: Global, line: &[u8]) -> Option<u64>
    ensures { IfSome result (λ serial. option_map (λ c. c.serial) (card_of line.now)
        ≡ Some serial) }
{
    match card_of(alloc, line) {
        Ok(Some(card)) => Some(card.serial),
        Ok(None) | Err(_) => None,
    }
}

/// Writes the event line about the flaw of `line`, if it has one. `number` is its line number.
pub(crate) fn note_flaw<E: Write + Drop>(
    alloc: Global,
    number: u64,
    line: &[u8],
    events: &mut EventLog<E>,
)
    ensures { IsNoted E.contents events.old events.new (flaw_lines number (flaw_of line.now)) }
{
    if !events.is_on() {
        return;
    }
    if let Ok(Some(flaw)) = flaw_of(alloc, line) {
        events.note(flaw_line(alloc, number, flaw));
    }
}

// Returns the code and the name of a refusal.
#[tactic(auto, unfolding(crate::specs::Events::refusal_in, http_requests::specs::Members::text_at))]
fn refusal_in(reply: &Reply) -> Option<(u8, &'static str)>
    ensures { option_map (λ r. (r.0, r.1.now)) result ≡ refusal_in reply.now }
{
    match reply {
        Reply::Refused { refusal } => Some((refusal.code(), refusal.name())),
        Reply::Busy { .. } => Some((MACHINE_BUSY, "machine-busy")),
        Reply::NumberReleased { .. } => Some((NUMBER_RELEASED, "number-released")),
        Reply::Faulty { fault } => Some((fault.kind.code(), fault.kind.name())),
        _ => None,
    }
}

fn rejected(alloc: Global, serial: u64) -> Result<EventLine, AllocError>
    ensures { IfOk result (λ line. text_of line ≡ rejected serial) }
{
    EventLine::new(alloc, "rejected")?.number("serial", serial)
}

fn refused_line(
    alloc: Global,
    serial: u64,
    number: u64,
    code: u8,
    name: &str,
) -> Result<EventLine, AllocError>
    ensures { IfOk result (λ line. text_of line ≡ refused_line serial number code name.now) }
{
    rejected(alloc, serial)?
        .number("number", number)?
        .number("code", u64::from(code))?
        .word("name", name)
}

fn spoiled_line(alloc: Global, serial: u64, number: u64) -> Result<EventLine, AllocError>
    ensures { IfOk result (λ line. text_of line ≡ spoiled_line serial number) }
{
    rejected(alloc, serial)?
        .number("number", number)?
        .word("cause", "spoiled")
}

fn exhausted_line(alloc: Global, serial: u64) -> Result<EventLine, AllocError>
    ensures { IfOk result (λ line. text_of line ≡ exhausted_line serial) }
{
    rejected(alloc, serial)?.word("cause", "exhausted")
}

fn used_line(alloc: Global, number: u64) -> Result<EventLine, AllocError>
    ensures { IfOk result (λ line. text_of line ≡ used_line number) }
{
    EventLine::new(alloc, "boot-used")?.number("number", number)
}

fn flaw_line(alloc: Global, number: u64, flaw: Flaw) -> Result<EventLine, AllocError>
    ensures { IfOk result (λ line. text_of line ≡ flaw_line number flaw) }
{
    EventLine::new(alloc, "bad-line")?
        .number("line", number)?
        .word("cause", flaw.name())
}

fn again_line(
    alloc: Global,
    number: u64,
    tries: u32,
    came: Option<&[u8]>,
) -> Result<EventLine, AllocError>
    ensures { IfOk result (λ line. text_of line
        ≡ again_line number tries (option_map (λ b. b.now) came.entry)) }
{
    let line = EventLine::new(alloc, "again")?
        .number("number", number)?
        .number("tries", u64::from(tries))?;
    match came {
        None | Some([]) => Ok(line),
        Some(bytes) => with_came(line, bytes),
    }
}

// Adds the first line of `bytes` if they begin with an HTTP version, otherwise only the number of
// bytes: a body without a head could contain a command, and so card data.
fn with_came(line: EventLine, bytes: &[u8]) -> Result<EventLine, AllocError>
    ensures { IfOk result (λ more. text_of more ≡ text_of line ++ came_pair bytes.now) }
{
    if bytes.starts_with(b"HTTP/") {
        line.quoted("reply", first_line(bytes))
    } else {
        line.number("bytes", bytes.len() as u64)
    }
}

// Returns the bytes before the first CR or LF, at most `MOST_OF_LINE`.
fn first_line(bytes: &[u8]) -> &[u8]
    ensures { result.now ≡ first_line bytes.now }
{
    let end = line_end(bytes).unwrap_or(bytes.len());
    &bytes[..end.min(MOST_OF_LINE)]
}

// Returns the position of the first CR or LF.
fn line_end(bytes: &[u8]) -> Option<usize>
    ensures { result ≡ position (λ b. (b == 13) || (b == 10)) bytes.now }
{
    bytes
        .iter()
        .position(|byte| *byte == b'\r' || *byte == b'\n')
}
