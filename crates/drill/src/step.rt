//! Runs one line of a drill.
ghost use Rattle.std.specs.Prelude.{◌≡◌, ◌++◌, ◌≤◌, List, ℕ, IfOk, IfSome, OnOk, Some, length, map};
ghost use Rattle.drill.specs.Floors.{Floor as FloorState};
ghost use Rattle.drill.specs.Turns.{IsTurn};
ghost use Rattle.drill.specs.Scripts.{asked, shown};
ghost use Rattle.drill.specs.Steps.{Answers, AsksBy, Delivers, Moves, Steps, delivered};
ghost use Rattle.drill.specs.Steps.{effect_of, effect_view, reply_line, reply_number, stopped};

use crate::delivery::Delivery;
use crate::floor::Floor;
use crate::line::{Line, line_of};
use crate::script::{Step, asked};
use crate::texts::text_line;
use crate::turn::Turn;
use feeder::Stop;
use itoa::Buffer;
use job_facts::JobStore;
use server::{End, MemoryReader, serve_one};
use std::alloc::{AllocError, Global};
use store_data::{Bytes, Name};
use wire::reply_parts;

/// The effect of a line: how many of the following lines were its file, its output, and whether the
/// server crashes in it.
#[derive(Drop)]
pub(crate) struct LineEffect {
    pub(crate) taken: usize,
    pub(crate) text: Vec<u8>,
    pub(crate) stops: bool,
}

/// Runs one line. Returns `None` if the line is malformed, or names a machine, packet or reply that
/// doesn't exist.
pub(crate) fn step<S: JobStore>(
    alloc: Global,
    floor: &mut Floor,
    store: &mut S,
    line: &[u8],
    behind: &[&[u8]],
) -> Result<Option<LineEffect>, AllocError>
    ensures steps { IfOk result (λ did. Steps S.state store.old store.new floor.old line.now
        (map (λ l. l.now) behind.now) (effect_of floor.new did)) }
    ensures within { IfOk result (λ did. IfSome did (λ d. d.taken ≤ length behind.now)) }
{
    match line_of(line) {
        Some(Line::Move(turn)) => move_by(alloc, floor, turn),
        Some(Line::Deliver(delivery)) => deliver(alloc, floor, store, delivery),
        Some(Line::Ask(step)) => ask(alloc, store, step, behind),
        None => Ok(None),
    }
}

// Runs a line that moves a machine or a reply.
fn move_by(alloc: Global, floor: &mut Floor, turn: Turn) -> Result<Option<LineEffect>, AllocError>
    requires { IsTurn turn }
    ensures moves { IfOk result (λ did. Moves floor.old turn (effect_of floor.new did)) }
    ensures within { IfOk result (λ did. IfSome did (λ d. d.taken ≡ 0)) }
{
    let Some(text) = floor.turn(alloc, turn)? else {
        return Ok(None);
    };
    Ok(Some(LineEffect {
        taken: 0,
        text,
        stops: false,
    }))
}

// Sends the request of a line to the server.
fn ask<S: JobStore>(
    alloc: Global,
    store: &mut S,
    step: Step<'_>,
    behind: &[&[u8]],
) -> Result<Option<LineEffect>, AllocError>
    ensures asks { (fl : FloorState) → let behind = map (λ l. l.now) behind.now in
        IfOk result (λ did. AsksBy S.state store.old store.new fl behind
        (asked (shown step.entry) behind) (effect_of fl did)) }
    ensures within { IfOk result (λ did. IfSome did (λ d. d.taken ≤ length behind.now)) }
{
    let Some((message, taken)) = asked(alloc, step, behind)? else {
        return Ok(None);
    };
    let reply = serve(alloc, store, message)?;
    let text = with_reply(Vec::new(alloc), reply.as_slice())?;
    Ok(Some(LineEffect {
        taken,
        text,
        stops: false,
    }))
}

// Delivers a packet to the server.
fn deliver<S: JobStore>(
    alloc: Global,
    floor: &mut Floor,
    store: &mut S,
    delivery: Delivery,
) -> Result<Option<LineEffect>, AllocError>
    requires { 1 ≤ delivery.packet }
    ensures delivers { IfOk result (λ did. Delivers S.state store.old store.new floor.old
        delivery (effect_of floor.new did)) }
    ensures within { IfOk result (λ did. IfSome did (λ d. d.taken ≡ 0)) }
{
    let Some(packet) = floor.packet(delivery.packet) else {
        return Ok(None);
    };
    let (machine, number) = (packet.machine, packet.number);
    let message = Vec::from_slice(alloc, packet.message.as_slice())?;
    match delivery.stop {
        Stop::No => {
            let reply = serve(alloc, store, message)?;
            Ok(Some(answered(alloc, floor, machine, number, reply.as_slice())?))
        }
        Stop::Before => Ok(Some(stop(alloc)?)),
        Stop::After => {
            let _ = serve(alloc, store, message)?;
            Ok(Some(stop(alloc)?))
        }
    }
}

// Stores the reply to a packet of `machine` with the request number `number`.
fn answered(
    alloc: Global,
    floor: &mut Floor,
    machine: Name,
    number: u64,
    reply: &[u8],
) -> Result<LineEffect, AllocError>
    ensures { IfOk result (λ did. (message : List ℕ)
        → effect_view floor.new did ≡ delivered (record {
          machine = machine;
          number = number;
          message = message;
        }) reply.now floor.old) }
{
    let kept = Bytes::from_vec(reply.to_vec(alloc)?);
    let count = floor.keep(machine, number, kept)?;
    let text = with_reply(numbered(alloc, count)?, reply)?;
    Ok(LineEffect {
        taken: 0,
        text,
        stops: false,
    })
}

// Returns the effect of a crash of the server.
fn stop(alloc: Global) -> Result<LineEffect, AllocError>
    ensures { IfOk result (λ did. (fl : FloorState) → effect_view fl did ≡ stopped fl) }
{
    Ok(LineEffect {
        taken: 0,
        text: text_line(alloc, b"stopped")?,
        stops: true,
    })
}

// Serves a message and returns its complete response.
fn serve<S: JobStore>(alloc: Global, store: &mut S, message: Vec<u8>) -> Result<Vec<u8>, AllocError>
    ensures { IfOk result (λ reply. Answers S.state store.old store.new message.items
        reply.items) }
{
    let mut incoming = MemoryReader::new(message, usize::MAX);
    let mut reply = Vec::new(alloc);
    let served = serve_one(alloc, store, &mut incoming, &mut reply);
    // The message is complete, and writing to memory fails only if an allocation fails.
    if served.end != End::Answered {
        return Err(AllocError);
    }
    Ok(reply)
}

// Returns the start of a response's line.
fn numbered(alloc: Global, count: usize) -> Result<Vec<u8>, AllocError>
    ensures { IfOk result (λ t. t.items ≡ reply_number count) }
{
    let mut number = Buffer::new();
    let mut text = Vec::from_slice(alloc, b"reply ")?;
    text.extend_from_slice(number.format(count).as_bytes())?;
    text.push(b' ')?;
    Ok(text)
}

// Adds the status of a response, a space and its body to `text`, and ends the line.
fn with_reply(mut text: Vec<u8>, reply: &[u8]) -> Result<Vec<u8>, AllocError>
    ensures { IfOk result (λ t. t.items ≡ text.items ++ reply_line reply.now) }
{
    put_line(&mut text, reply)?;
    Ok(text)
}

// Adds the line that is printed for a response.
fn put_line(text: &mut Vec<u8>, reply: &[u8]) -> Result<(), AllocError>
    ensures { OnOk result (text.new.items ≡ text.old.items ++ reply_line reply.now) }
{
    let (status, body) = reply_parts(reply);
    text.extend_from_slice(status)?;
    text.push(b' ')?;
    text.extend_from_slice(body)?;
    if !body.ends_with(b"\n") {
        text.push(b'\n')?;
    }
    Ok(())
}
