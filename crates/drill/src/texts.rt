//! Builds the lines that are printed about a shop floor.
ghost use Rattle.std.specs.Prelude.{◌≡◌, IfOk};
ghost use Rattle.text_io.specs.Written.{line};
ghost use Rattle.feeder.specs.Table.{Apply, Eject};
ghost use Rattle.feeder.specs.Views.{act_of};
ghost use Rattle.drill.specs.Floors.{act_text, packet_text};

use feeder::Act;
use itoa::Buffer;
use std::alloc::{AllocError, Global};

/// Returns `text` with LF at its end.
///
/// # Errors
///
/// Fails only if an allocation fails.
pub fn text_line(alloc: Global, text: &[u8]) -> Result<Vec<u8>, AllocError>
    ensures { IfOk result (λ t. t.items ≡ line text.now) }
{
    let mut line = Vec::from_slice(alloc, text)?;
    line.push(b'\n')?;
    Ok(line)
}

/// Returns the line of packet number `count`.
pub(crate) fn packet_line(alloc: Global, count: usize) -> Result<Vec<u8>, AllocError>
    ensures { IfOk result (λ t. t.items ≡ packet_text count) }
{
    let mut number = Buffer::new();
    let mut line = Vec::from_slice(alloc, b"packet ")?;
    line.extend_from_slice(number.format(count).as_bytes())?;
    line.push(b'\n')?;
    Ok(line)
}

/// Returns the line of a machine's next action.
pub(crate) fn act_line(alloc: Global, act: Act<'_>) -> Result<Vec<u8>, AllocError>
    ensures { IfOk result (λ t. t.items ≡ act_text (act_of act.entry)) }
{
    match act {
        Act::Send => text_line(alloc, b"send"),
        Act::Apply(command) => apply_line(alloc, command),
        Act::Eject(good) => eject_line(alloc, good),
        Act::Wait => text_line(alloc, b"wait"),
    }
}

fn eject_line(alloc: Global, good: bool) -> Result<Vec<u8>, AllocError>
    ensures { IfOk result (λ t. t.items ≡ act_text (Eject good)) }
{
    if good {
        text_line(alloc, b"eject good")
    } else {
        text_line(alloc, b"eject bad")
    }
}

fn apply_line(alloc: Global, command: &[u8]) -> Result<Vec<u8>, AllocError>
    ensures { IfOk result (λ t. t.items ≡ act_text (Apply command.now)) }
{
    let command = hex::encode_upper(alloc, command)?;
    let mut line = Vec::from_slice(alloc, b"apply ")?;
    line.extend_from_slice(command.as_bytes())?;
    line.push(b'\n')?;
    Ok(line)
}
