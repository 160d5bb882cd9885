//! Writes the heads of the requests that clients send.
ghost use Rattle.std.specs.Prelude.{◌≡◌, ◌≤◌, ◌++◌, OnOk, length};
ghost use Rattle.text_io.specs.Inputs.{most_input};
ghost use Rattle.http_messages.specs.RequestHeads.{IsHeardBefore, IsTarget, request_head};

use itoa::Buffer;
use std::alloc::AllocError;

/// Appends the head of a POST request to `text`. The request has the path `target` and a body of
/// `size` bytes (RFC 9112 section 3).
///
/// # Errors
///
/// Returns `AllocError` if an allocation fails. `text` may then end with a part of the head.
#[tactic(auto, using(crate::proofs::SentHeads::sent_is_heard))]
pub fn push_request_head(text: &mut Vec<u8>, target: &[u8], size: usize) -> Result<(), AllocError>
    ensures text { OnOk result (text.new.items ≡ text.old.items ++ request_head target.now size) }
    ensures heard { IsTarget target.now → size ≤ most_input
        → length (request_head target.now size) ≤ 8192
        → IsHeardBefore target.now size }
{
    let mut digits = Buffer::new();
    text.extend_from_slice(b"POST ")?;
    text.extend_from_slice(target)?;
    text.extend_from_slice(b" HTTP/1.1\r\nHost: localhost\r\nContent-Length: ")?;
    text.extend_from_slice(digits.format(size).as_bytes())?;
    text.extend_from_slice(b"\r\n\r\n")?;
    Ok(())
}
