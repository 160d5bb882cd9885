//! Sends a message and reads the response.
ghost use Rattle.std.specs.Prelude.{IfOk, Result};
ghost use Rattle.text_io.specs.Written.{Writes};
ghost use Rattle.text_io.specs.declared.writing.WriteFailed.{WriteFailed};
ghost use Rattle.loopback.specs.Asking.{IsResponse};

use std::alloc::Global;
use std::io::{Read, Write};
use text_io::{ReadFault, read_within, write_text};

/// The maximum size of a response, in bytes. The responses to a driver are far smaller.
const MOST_REPLY: u32 = 8_192;

/// Sends `message` and reads the whole response. Returns `None` if a write fails or the response is
/// too long.
///
/// # Errors
///
/// - `Failed`: a read fails.
/// - `Memory`: an allocation fails.
pub(crate) fn send_and_read<P: Read + Write>(
    alloc: Global,
    peer: &mut P,
    message: &[u8],
) -> Result<Option<Vec<u8>>, ReadFault>
    ensures { IfOk result (λ came. (after : P) × (sent : Result (Unit {0}) WriteFailed)
        × Writes (P.contents peer.old) (P.contents after) message.now sent
        × IsResponse (P.remaining after) sent came) }
{
    match write_text(peer, message) {
        Ok(()) => read_within(alloc, peer, MOST_REPLY),
        Err(_) => Ok(None),
    }
}
