//! Writes responses, without an allocation.
ghost use Rattle.std.specs.Prelude.{◌≡◌, ◌≤◌, ◌++◌, ℕ, List, false, length};
ghost use Rattle.std.specs.Io.KnownBytes.{Appends};
ghost use Rattle.http_messages.specs.FixedReplies.{refusal_text};
ghost use Rattle.http_messages.specs.Texts.{reply_text};
ghost use Rattle.text_io.specs.Written.{Writes};
ghost use Rattle.server.specs.Replies.{IsWritten};

use crate::beginning::Beginning;
use crate::served::{End, Served};
use http_messages::{Content, FixedReply, reply_head};
use std::io::Write;
use text_io::{WriteFailed, write_text};

/// The maximum size of a body that is written together with its head. A reply with a command is
/// always shorter.
const SHORT: usize = 768;

/// Writes a response. If the writer fails, only a prefix of it is written.
pub(crate) fn send<W: Write>(writer: &mut W, status: u16, kind: Content, body: &[u8]) -> End
    ensures { (written : List ℕ) × Appends (W.contents writer.old) (W.contents writer.new) written
        × IsWritten result (reply_text status kind body.now) written }
{
    match write_reply(writer, status, kind, body) {
        Ok(()) => End::Answered,
        Err(_) => End::WriteFailed,
    }
}

// Writes the head and the body. If the body is short, both are written at once, because each write
// sends a packet of its own.
fn write_reply<W: Write>(
    writer: &mut W,
    status: u16,
    kind: Content,
    body: &[u8],
) -> Result<(), WriteFailed>
    ensures { Writes (W.contents writer.old) (W.contents writer.new)
        (reply_text status kind body.now) result }
{
    let mut head = [0; 256];
    let size = reply_head(status, kind, body.len(), &mut head);
    if body.len() <= SHORT {
        write_joined(writer, &head[..size], body)
    } else {
        write_apart(writer, &head[..size], body)
    }
}

// Writes a head and a short body at once.
fn write_joined<W: Write>(writer: &mut W, head: &[u8], body: &[u8]) -> Result<(), WriteFailed>
    requires head { length head.now ≤ 256 }
    requires body { length body.now ≤ 768 }
    ensures { Writes (W.contents writer.old) (W.contents writer.new) (head.now ++ body.now) result }
{
    let mut text = Beginning::<1_024>::new();
    text.add(head);
    text.add(body);
    write_text(writer, text.as_slice())
}

// Writes a head and then a body.
fn write_apart<W: Write>(writer: &mut W, head: &[u8], body: &[u8]) -> Result<(), WriteFailed>
    ensures { Writes (W.contents writer.old) (W.contents writer.new) (head.now ++ body.now) result }
{
    write_text(writer, head)?;
    write_text(writer, body)
}

/// Writes the fixed response `why`.
pub(crate) fn refuse<W: Write>(writer: &mut W, why: FixedReply) -> Served
    ensures written { (written : List ℕ)
        × Appends (W.contents writer.old) (W.contents writer.new) written
        × IsWritten result.end (refusal_text why) written }
    ensures decided { result.decided ≡ false }
{
    Served {
        end: send(writer, why.status(), why.kind(), why.body()),
        decided: false,
    }
}
