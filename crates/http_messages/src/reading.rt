//! Reads a head, whose bytes may arrive in pieces of any size.
ghost use Rattle.std.specs.Prelude.{◌≡◌, ◌+◌, ◌<◌, ◌≤◌, ℕ, IfSome, List, None, length};
ghost use Rattle.std.specs.Bool.{OnFalse, OnTrue};
ghost use Rattle.std.specs.Io.KnownBytes.{Consumes};
ghost use Rattle.http_messages.specs.Messages.{Agrees};
ghost use Rattle.http_messages.specs.Heads.{ends_head, head_end, least};
ghost use Rattle.http_messages.specs.HeadEnd.{Reaches};

use crate::source::ByteSource;

/// The result of reading a head.
#[derive(Clone, Copy, Debug, PartialEq, Eq)]
pub(crate) enum Reach {
    /// A head of `end` bytes, among the first `filled` bytes.
    Head { end: usize, filled: usize },
    /// Bytes that ended before the head was complete.
    Broken,
    /// 8,192 bytes that don't contain the end of the head.
    HeadTooLarge,
}

/// Reads into `buf` until it contains the end of the head. Allocates nothing.
pub(crate) fn read_head<I: ByteSource>(incoming: &mut I, buf: &mut [u8; 8192]) -> Reach
    ensures head { Reaches (I.brings incoming.old) (I.brings incoming.new) buf.new result }
    ensures cut { I.cut incoming.new ≡ I.cut incoming.old }
{
    let mut filled = 0;
    while filled < buf.len() {
        let count = incoming.bring(&mut buf[filled..]);
        if count == 0 {
            return Reach::Broken;
        }
        if let Some(end) = find_end(&buf[..filled + count], filled) {
            let filled = filled + count;
            return Reach::Head { end, filled };
        }
        filled += count;
    }
    Reach::HeadTooLarge
}

/// Returns the position after the first CR LF CR LF in `bytes`. The search starts at `from`,
/// because the first `from` bytes were searched before.
pub(crate) fn find_end(bytes: &[u8], from: usize) -> Option<usize>
    requires within { from ≤ length bytes.now }
    requires before { least (ends_head bytes.now) from ≡ None }
    ensures first { result ≡ head_end bytes.now }
    ensures within { IfSome result (λ end. end ≤ length bytes.now) }
{
    for at in from..bytes.len() {
        if bytes[..at + 1].ends_with(b"\r\n\r\n") {
            return Some(at + 1);
        }
    }
    None
}

/// Reads until `buf` is full. Returns `true` if it is, or `false` if the bytes ended too early.
pub(crate) fn fill<I: ByteSource>(incoming: &mut I, buf: &mut [u8]) -> bool
    ensures full { OnTrue result
        (Consumes (I.brings incoming.old) (I.brings incoming.new) buf.new) }
    ensures early { OnFalse result ((more : List ℕ) × Agrees (I.brings incoming.old) more
        × (length more < length buf.new)) }
    ensures cut { I.cut incoming.new ≡ I.cut incoming.old }
{
    let mut at = 0;
    while at < buf.len() {
        let count = incoming.bring(&mut buf[at..]);
        if count == 0 {
            return false;
        }
        at += count;
    }
    true
}
