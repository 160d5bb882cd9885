//! Determines the progress of a message from the bytes received so far.
ghost use Rattle.std.specs.Prelude.{◌≡◌, ◌≤◌, ◌++◌, ℕ, List, None, Some, length, take};
ghost use Rattle.http_messages.specs.Heads.{head_end};
ghost use Rattle.http_messages.specs.Messages.{end_of_head};
ghost use Rattle.http_messages.specs.Progresses.{HasLength, IsProgress};

use crate::head::judge;
use crate::reading::find_end;

/// The maximum size of a head, in bytes (this project's profile).
pub const MOST_HEAD: usize = 8192;

/// The progress of a message, determined from the bytes received so far.
#[derive(Clone, Copy, Debug, PartialEq, Eq)]
pub enum Progress {
    /// An incomplete head.
    Head,
    /// A head that passes its tests. Its message has `total` bytes, and fewer were received.
    Body { total: usize },
    /// A complete message.
    Message,
    /// A message that is refused, regardless of the bytes that follow.
    Refused,
}

/// Returns the progress of a message if `bytes` were received. The search for the end of the head
/// starts at `from`, because the first `from` bytes were searched before. Allocates nothing.
pub fn progress_from(bytes: &[u8], from: usize) -> Progress
    requires few { length bytes.now ≤ 8192 }
    requires within { from ≤ length bytes.now }
    requires searched { head_end (take from bytes.now) ≡ None }
    ensures { IsProgress bytes.now result }
{
    match find_end(bytes, from) {
        Some(end) => progress_after(&bytes[..end], bytes.len()),
        None if bytes.len() < MOST_HEAD => Progress::Head,
        None => Progress::Refused,
    }
}

// Returns the progress of a message with the complete head `head` if `count` bytes were received.
fn progress_after(head: &[u8], count: usize) -> Progress
    requires { length head.now ≤ 8192 }
    ensures { (bytes : List ℕ) → end_of_head bytes ≡ Some (length head.now)
        → take (length head.now) bytes ≡ head.now → length bytes ≡ count
        → IsProgress bytes result }
{
    match judge(head) {
        Ok(parts) => progress_of(head.len() + parts.size, count),
        Err(_) => Progress::Refused,
    }
}

/// Returns the progress of a message of `total` bytes if `count` bytes were received. Its head has
/// passed its tests.
pub fn progress_of(total: usize, count: usize) -> Progress
    ensures { (bytes more : List ℕ) → HasLength bytes total → length (bytes ++ more) ≡ count
        → IsProgress (bytes ++ more) result }
{
    if count < total {
        Progress::Body { total }
    } else {
        Progress::Message
    }
}
