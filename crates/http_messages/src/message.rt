//! Reads messages, which consist of a head and a body.
ghost use Rattle.std.specs.Prelude.{◌≡◌, ◌++◌, ℕ, List, IfOk, None, Ok, if◌then◌else◌, length};
ghost use Rattle.http_messages.specs.HeadTests.{parts};
ghost use Rattle.http_messages.specs.Messages.{IsBody, IsFilled, IsReading, IsReadingAfter};
ghost use Rattle.http_messages.specs.Messages.{IsReadingBy};
ghost use Rattle.http_messages.specs.Messages.{Agrees, as_parts};

use crate::fixed::FixedReply;
use crate::head::{HeadParts, judge};
use crate::reading::{Reach, fill, read_head};
use crate::source::ByteSource;
use std::alloc::{AllocError, Global};
use store_data::Bytes;

/// A complete message whose head passes its tests.
#[derive(Drop)]
pub struct Message {
    /// The method in the request line (RFC 9112 section 3.1).
    pub method: Bytes,
    /// The path, which is the request target in the request line (RFC 9112 section 3.2).
    pub target: Bytes,
    /// The body. Its size is the value of `Content-Length`, or 0 if the head has no such field.
    pub body: Bytes,
}

/// The result of reading a message from a connection.
#[derive(Drop)]
pub enum Reading {
    /// A complete message.
    Message(Message),
    /// Bytes that ended before the message was complete.
    Broken,
    /// A head that doesn't end within 8,192 bytes or that fails a test, with the fixed response.
    Refused(FixedReply),
    /// A head that passes its tests, after which an allocation failed.
    Memory,
}

/// Reads one message (RFC 9112 section 2.1). Its bytes may arrive in pieces of any size, and bytes
/// after it are ignored. Allocates nothing before the head has passed its tests.
///
/// If bytes after a head that passes its tests were lost because an allocation failed, the result
/// is never `Broken`. If the head is incomplete, the result is `Broken` even if bytes were lost.
pub fn read_message<I: ByteSource>(alloc: Global, incoming: &mut I) -> Reading
    ensures { (bytes : List ℕ) × Agrees (I.brings incoming.old) bytes
        × IsReading bytes (I.cut incoming.old) result }
{
    let mut buf = [0; 8192];
    match read_head(incoming, &mut buf) {
        Reach::Head { end, filled } => read_rest(alloc, incoming, &buf[..end], &buf[end..filled]),
        Reach::Broken => Reading::Broken,
        Reach::HeadTooLarge => Reading::Refused(FixedReply::HeadTooLarge),
    }
}

// Tests `head`, and reads the body after it. The bytes `begun` after the head were read with it.
fn read_rest<I: ByteSource>(alloc: Global, incoming: &mut I, head: &[u8], begun: &[u8]) -> Reading
    ensures { (more : List ℕ) × Agrees (I.brings incoming.old) more
        × IsReadingAfter head.now (begun.now ++ more) (I.cut incoming.old) result }
{
    match judge(head) {
        Ok(head) => match read_body(alloc, incoming, head.size, begun) {
            Ok(body) => with_body(alloc, incoming, head, body),
            Err(_) => Reading::Memory,
        },
        Err(why) => Reading::Refused(why),
    }
}

// Returns the message with this head and body. `body` is `None` if too few bytes were read.
fn with_body<I: ByteSource>(
    alloc: Global,
    incoming: &I,
    head: HeadParts<'_>,
    body: Option<Bytes>,
) -> Reading
    ensures read { (rest : List ℕ) → IsBody head.entry.size rest body
        → IsReadingBy (parts (Ok head.entry)) rest (I.cut incoming.now) result }
    ensures early { body ≡ None
        → result ≡ (if I.cut incoming.now then Reading.Memory else Reading.Broken) }
{
    let Some(body) = body else {
        return if incoming.is_cut() {
            Reading::Memory
        } else {
            Reading::Broken
        };
    };
    match message_with(alloc, head, body) {
        Ok(message) => Reading::Message(message),
        Err(_) => Reading::Memory,
    }
}

// Returns a message with copies of the method and the path in `head`, and with `body`.
fn message_with(alloc: Global, head: HeadParts<'_>, body: Bytes) -> Result<Message, AllocError>
    ensures { IfOk result
        (λ m. as_parts m ≡ record {
          method = head.entry.method.now;
          target = head.entry.target.now;
          body = body;
        }) }
{
    let method = Bytes::from_vec(head.method.to_vec(alloc)?);
    let target = Bytes::from_vec(head.target.to_vec(alloc)?);
    Ok(Message {
        method,
        target,
        body,
    })
}

// Reads a body of `size` bytes, starting with the bytes `begun`, which were read already. Returns
// `None` if the bytes end too early.
fn read_body<I: ByteSource>(
    alloc: Global,
    incoming: &mut I,
    size: usize,
    begun: &[u8],
) -> Result<Option<Bytes>, AllocError>
    ensures body { (more : List ℕ) × Agrees (I.brings incoming.old) more
        × IfOk result (IsBody size (begun.now ++ more)) }
    ensures cut { I.cut incoming.new ≡ I.cut incoming.old }
{
    let mut body = vec![in alloc; 0; size]?;
    if bring_body(incoming, begun, &mut body) {
        Ok(Some(Bytes::from_vec(body)))
    } else {
        Ok(None)
    }
}

// Fills `body`, starting with the bytes `begun`, which were read already. Returns `false` if the
// bytes end too early.
fn bring_body<I: ByteSource>(incoming: &mut I, begun: &[u8], body: &mut [u8]) -> bool
    ensures size { length body.new ≡ length body.old }
    ensures filled { (more : List ℕ) × Agrees (I.brings incoming.old) more
        × IsFilled body.new (begun.now ++ more) result }
    ensures cut { I.cut incoming.new ≡ I.cut incoming.old }
{
    let begun = &begun[..body.len().min(begun.len())];
    body[..begun.len()].copy_from_slice(begun);
    fill(incoming, &mut body[begun.len()..])
}
