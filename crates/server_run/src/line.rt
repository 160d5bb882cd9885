//! The event line of a connection.
ghost use Rattle.std.specs.Prelude.{◌≡◌, ◌++◌, IfOk};
ghost use Rattle.event_lines.specs.Views.{text_of};
ghost use Rattle.server_run.specs.ConnectionLines.{connection_line, fault_pair, fault_word, flaw_in};
ghost use Rattle.server_run.specs.ConnectionLines.{flaw_of, flaw_pairs, member_pair, outcome_text};
ghost use Rattle.server_run.specs.ConnectionLines.{refusal_pairs, request_pair, status_pair};

use crate::observation::Observation;
use crate::words::refusal_in;
use event_lines::EventLine;
use http_messages::{FixedReply, Flaw, Member, reply_parts, request_line};
use http_requests::Meaning;
use job_facts::StoreFault;
use server::End;
use std::alloc::{AllocError, Global};

/// Returns the event line of a connection: its end, the status of its response, and its request
/// line. The line of a refusal has its code and name, the line of a 503 has the fault of the store,
/// and the line of a 400 has the flaw of the message.
///
/// Only the first 256 bytes of the client are kept. They appear only up to the first CR LF, and
/// only if they have the form of a request line. Otherwise the line has their number. A body with
/// status 200 never appears, not even in part.
///
/// # Errors
///
/// Returns `AllocError` if an allocation fails.
pub fn connection_line(alloc: Global, observation: &Observation) -> Result<EventLine, AllocError>
    ensures { IfOk result (λ line. text_of line ≡ connection_line observation.now) }
{
    let line = outcome_line(alloc, observation)?;
    with_request(line, observation.request.as_slice())
}

// Adds the request line at the start of `bytes`, or otherwise the number of bytes.
fn with_request(line: EventLine, bytes: &[u8]) -> Result<EventLine, AllocError>
    ensures { IfOk result (λ more. text_of more ≡ text_of line ++ request_pair bytes.now) }
{
    match request_line(bytes) {
        Some(request) => line.quoted("request", request),
        None => line.number("bytes", bytes.len() as u64),
    }
}

// Returns the line without the request.
fn outcome_line(alloc: Global, observation: &Observation) -> Result<EventLine, AllocError>
    ensures { IfOk result (λ line. text_of line
        ≡ outcome_text observation.now.served.end observation.now) }
{
    match observation.served.end {
        End::Answered => {
            let line = EventLine::new(alloc, "answered")?;
            let line = with_status(line, observation.status())?;
            let line = with_refusal(line, observation)?;
            let line = with_fault(line, observation)?;
            with_flaw(line, flaw_in(&observation.meaning))
        }
        End::Broken => EventLine::new(alloc, "broken"),
        End::WriteFailed => with_status(EventLine::new(alloc, "unsent")?, observation.status()),
    }
}

// Adds the status, if there is one.
fn with_status(line: EventLine, status: &str) -> Result<EventLine, AllocError>
    ensures { IfOk result (λ more. text_of more ≡ text_of line ++ status_pair status.now) }
{
    if status.is_empty() {
        Ok(line)
    } else {
        line.word("status", status)
    }
}

// Adds the code and name of a refusal. No part of a body with status 200 is shown, because it may
// contain a command.
fn with_refusal(line: EventLine, observation: &Observation) -> Result<EventLine, AllocError>
    ensures { IfOk result (λ more. text_of more ≡ text_of line ++ refusal_pairs observation.now) }
{
    if observation.status() == "200" {
        return Ok(line);
    }
    let (_status, body) = reply_parts(observation.reply.as_slice());
    match refusal_in(body) {
        Some((code, name)) => line.word("code", code)?.word("name", name),
        None => Ok(line),
    }
}

// Adds the fault of the store, if the status is 503.
fn with_fault(line: EventLine, observation: &Observation) -> Result<EventLine, AllocError>
    ensures { IfOk result (λ more. text_of more ≡ text_of line ++ fault_pair observation.now) }
{
    if observation.is_unavailable() {
        line.word("fault", fault_word(observation.fault()))
    } else {
        Ok(line)
    }
}

// Returns the flaw of a malformed message.
fn flaw_in(meaning: &Meaning) -> Option<Flaw>
    ensures { result ≡ flaw_in meaning.now }
{
    match meaning {
        Meaning::Refused(why) => flaw_of(*why),
        _ => None,
    }
}

fn flaw_of(why: FixedReply) -> Option<Flaw>
    ensures { result ≡ flaw_of why }
{
    match why {
        FixedReply::Malformed(flaw) => Some(flaw),
        _ => None,
    }
}

// Adds the word of the flaw and its member, if the message is malformed. A member that no request
// has may be card data, so no flaw has its name.
fn with_flaw(line: EventLine, flaw: Option<Flaw>) -> Result<EventLine, AllocError>
    ensures { IfOk result (λ more. text_of more ≡ text_of line ++ flaw_pairs flaw) }
{
    match flaw {
        Some(flaw) => with_member(line.word("cause", flaw.word())?, flaw.member()),
        None => Ok(line),
    }
}

// Adds the name of the member, if there is one.
fn with_member(line: EventLine, member: Option<Member>) -> Result<EventLine, AllocError>
    ensures { IfOk result (λ more. text_of more ≡ text_of line ++ member_pair member) }
{
    match member {
        Some(member) => line.word("member", member.name()),
        None => Ok(line),
    }
}

/// Returns the word for `fault` in event lines.
pub fn fault_word(fault: StoreFault) -> &'static str
    ensures { result.now ≡ fault_word fault }
{
    match fault {
        StoreFault::Full => "full",
        StoreFault::Device => "device",
        StoreFault::Memory => "memory",
    }
}
