//! Runs the connections of a case as typed arrivals and accounts.
ghost use Rattle.std.specs.Prelude.{◌↔◌, ◌≤◌, ◌<◌, ◌^◌, All, IfOk, IfSome, IsTrue};
ghost use Rattle.job_facts.specs.Requests.{IsArrival, IsCall};
ghost use Rattle.wire.specs.Asks.{IsInRange};
ghost use Rattle.wire.specs.Sending.{IsSendable};

use crate::ways::{Exchange, StoreKind};
use arrivals::{Kept, body_of, status_of};
use job_facts::{Arrival, Call, JobStore, Refusal, Reply, Request};
use reply_store::{handle, run};
use reports::{AccountFault, batch_counts, blank_counts, close_report};
use server::Replied;
use std::alloc::Global;
use store_data::{Bytes, Name};
use text_io::MOST_INPUT;
use wire::{
    AskFault, Asked, Pieces, Reading, Wanted, parse_reply, read_message, request_text, to_ask,
};
use worked_files::{CaseFault, JSON, TEXT, check_bytes, reply_bytes};

/// 1 + the largest serial number and session number (this project's profile).
const PAST_NUMBERS: u64 = 1_000_000_000_000_000_000;

// Returns the request in these bytes, if they contain one.
fn asked(alloc: Global, input: &[u8]) -> Result<Option<Asked>, CaseFault>
    ensures { IfOk result (λ found. IfSome found IsInRange) }
{
    match read_message(alloc, &mut Pieces::new(input, input.len())) {
        Reading::Message(message) => match to_ask(alloc, message) {
            Ok(asked) => Ok(Some(asked)),
            Err(AskFault::Refused(_)) => Ok(None),
            Err(AskFault::Memory) => Err(CaseFault::Memory),
        },
        Reading::Broken | Reading::Refused(_) => Ok(None),
        Reading::Memory => Err(CaseFault::Memory),
    }
}

/// Checks that `handle` for each arrival, and the call for each account, returns the reply of the
/// first run.
pub fn check_handled<K: StoreKind>(
    alloc: Global,
    exchanges: &[Exchange],
    first: &[Replied],
) -> Result<(), CaseFault> {
    let mut store = K::fresh(alloc)?;
    for (exchange, replied) in exchanges.iter().zip(first) {
        if let Some(came) = answered(alloc, &mut store, exchange.input.as_slice())? {
            let wanted = replied.written.as_slice();
            check_bytes(alloc, exchange.line, "handle", wanted, came.as_slice())?;
        }
    }
    Ok(())
}

// Returns the reply to a request.
fn answered<S: JobStore>(
    alloc: Global,
    store: &mut S,
    input: &[u8],
) -> Result<Option<Vec<u8>>, CaseFault> {
    match asked(alloc, input)? {
        Some(Asked::Arrival(arrival)) => Ok(Some(handled(alloc, store, &arrival)?)),
        Some(Asked::Account(wanted)) => Ok(Some(account(alloc, store, wanted)?)),
        None => Ok(None),
    }
}

fn handled<S: JobStore>(
    alloc: Global,
    store: &mut S,
    arrival: &Arrival,
) -> Result<Vec<u8>, CaseFault>
    requires { IsArrival arrival.now }
{
    match handle(alloc, store, arrival) {
        Ok(kept) => Ok(reply_bytes(alloc, kept.status, JSON, None, kept.body.as_slice())?),
        Err(_) => Err(CaseFault::Memory),
    }
}

fn account<S: JobStore>(
    alloc: Global,
    store: &mut S,
    wanted: Wanted,
) -> Result<Vec<u8>, CaseFault> {
    let (kind, body_of_reply) = match wanted {
        Wanted::Batch(batch) => (JSON, batch_counts(alloc, store, &batch)),
        Wanted::Blanks(product) => (JSON, blank_counts(alloc, store, &product)),
        Wanted::Report(batch) => (TEXT, report(alloc, store, &batch)),
    };
    match body_of_reply {
        Ok(body) => Ok(reply_bytes(alloc, 200, kind, None, body.as_slice())?),
        Err(AccountFault::Refused(refusal)) => refused(alloc, refusal),
        Err(AccountFault::Store(_) | AccountFault::Write) => Err(CaseFault::Memory),
    }
}

fn report<S: JobStore>(alloc: Global, store: &mut S, batch: &Name) -> Result<Bytes, AccountFault> {
    let mut text = Vec::new(alloc);
    close_report(alloc, store, batch, &mut text)?;
    Ok(Bytes::from_vec(text))
}

fn refused(alloc: Global, refusal: Refusal) -> Result<Vec<u8>, CaseFault> {
    body_of_reply(alloc, &Reply::Refused { refusal })
}

// Returns the bytes of a reply.
fn body_of_reply(alloc: Global, reply: &Reply) -> Result<Vec<u8>, CaseFault> {
    let body = body_of(alloc, reply)?;
    Ok(reply_bytes(alloc, status_of(reply), JSON, None, body.as_slice())?)
}

/// Checks that the arrivals, handled in one call, get the replies of the first run.
pub fn check_run<K: StoreKind>(
    alloc: Global,
    exchanges: &[Exchange],
    first: &[Replied],
) -> Result<(), CaseFault> {
    let arrivals = arrivals(alloc, exchanges)?;
    let mut store = K::fresh(alloc)?;
    let mut outcomes = run(alloc, &mut store, arrivals.as_slice())?.into_iter();
    for (exchange, replied) in exchanges.iter().zip(first) {
        let Some(Asked::Arrival(_)) = asked(alloc, exchange.input.as_slice())? else {
            continue;
        };
        let Some(Ok(kept)) = outcomes.next() else {
            return Err(CaseFault::Memory);
        };
        check_kept(alloc, exchange.line, replied, &kept)?;
    }
    Ok(())
}

fn check_kept(alloc: Global, line: u64, replied: &Replied, kept: &Kept) -> Result<(), CaseFault> {
    let came = reply_bytes(alloc, kept.status, JSON, None, kept.body.as_slice())?;
    check_bytes(
        alloc,
        line,
        "run",
        replied.written.as_slice(),
        came.as_slice(),
    )
}

fn arrivals(alloc: Global, exchanges: &[Exchange]) -> Result<Vec<Arrival>, CaseFault>
    ensures { IfOk result (λ arrivals. All IsArrival arrivals.items) }
{
    let mut arrivals = Vec::new(alloc);
    for exchange in exchanges {
        let Some(Asked::Arrival(arrival)) = asked(alloc, exchange.input.as_slice())? else {
            continue;
        };
        arrivals.push(arrival)?;
    }
    Ok(arrivals)
}

/// Checks that `parse_reply` reads each reply to an arrival, and that it is the same when written
/// again.
pub fn check_parsed(
    alloc: Global,
    exchanges: &[Exchange],
    first: &[Replied],
) -> Result<(), CaseFault> {
    for (exchange, replied) in exchanges.iter().zip(first) {
        let written = replied.written.as_slice();
        if let Some(again) = written_again(alloc, exchange, written)? {
            check_bytes(
                alloc,
                exchange.line,
                "parse_reply",
                written,
                again.as_slice(),
            )?;
        }
    }
    Ok(())
}

// Reads a reply and writes it again. Returns no bytes if the reply to an arrival can't be read, and
// `None` if the request isn't an arrival.
fn written_again(
    alloc: Global,
    exchange: &Exchange,
    written: &[u8],
) -> Result<Option<Vec<u8>>, CaseFault> {
    if let Some(reply) = parse_reply(alloc, written)? {
        return Ok(Some(body_of_reply(alloc, &reply)?));
    }
    match asked(alloc, exchange.input.as_slice())? {
        Some(Asked::Arrival(_)) => Ok(Some(Vec::new(alloc))),
        _ => Ok(None),
    }
}

/// Returns the inputs, with each request written by `request_text`.
pub fn written_anew(alloc: Global, exchanges: &[Exchange]) -> Result<Vec<Vec<u8>>, CaseFault> {
    let mut inputs = Vec::new(alloc);
    for exchange in exchanges {
        inputs.push(input_anew(alloc, exchange.input.as_slice())?)?;
    }
    Ok(inputs)
}

fn input_anew(alloc: Global, input: &[u8]) -> Result<Vec<u8>, CaseFault> {
    let text = match asked(alloc, input)? {
        Some(Asked::Arrival(arrival)) => anew(alloc, &arrival)?,
        _ => None,
    };
    match text {
        Some(text) => Ok(text.as_slice().to_vec(alloc)?),
        None => Ok(input.to_vec(alloc)?),
    }
}

fn anew(alloc: Global, arrival: &Arrival) -> Result<Option<Bytes>, CaseFault>
    requires { IsArrival arrival.now }
{
    let call = &arrival.request;
    if !is_sendable(call) {
        return Ok(None);
    }
    let text = request_text(alloc, &arrival.client, arrival.number, call)?;
    Ok(Some(text))
}

// Returns `true` if `request_text` can write a request.
fn is_sendable(call: &Call) -> bool
    requires { IsCall call.now }
    ensures { IsTrue result → IsSendable call.now }
{
    match call {
        Call::Job { request } => is_sendable_job(request),
        Call::Release { .. } => true,
    }
}

fn is_sendable_job(request: &Request) -> bool
    requires { IsCall (Call.Job request.now) }
    ensures { IsTrue result → IsSendable (Call.Job request.now) }
{
    match request {
        Request::Import { raw, .. } => raw.as_slice().len() <= MOST_INPUT as usize,
        Request::Open { blank, .. } => *blank < PAST_NUMBERS,
        Request::Discard { blank } => *blank < PAST_NUMBERS,
        Request::Answer { session, index, sw } => {
            // Reading both values tells the checker their ranges.
            let (_index, _sw) = (*index, *sw);
            is_session(*session)
        }
        Request::Abort { session } => is_session(*session),
        _ => true,
    }
}

fn is_session(session: u64) -> bool
    ensures { IsTrue result ↔ ((1 ≤ session) × (session < 10 ^ 18)) }
{
    1 <= session && session < PAST_NUMBERS
}

/// Returns the reply to a message that contains an arrival.
pub fn reply_to<S: JobStore>(
    alloc: Global,
    store: &mut S,
    input: &[u8],
) -> Result<Option<Reply>, CaseFault> {
    match asked(alloc, input)? {
        Some(Asked::Arrival(arrival)) => {
            let written = handled(alloc, store, &arrival)?;
            Ok(parse_reply(alloc, written.as_slice())?)
        }
        _ => Ok(None),
    }
}
