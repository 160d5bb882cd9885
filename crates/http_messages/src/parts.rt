//! Splits a response into its parts.
ghost use Rattle.std.specs.Prelude.{◌≡◌};
ghost use Rattle.http_messages.specs.ReplyParts.{body_behind, status_in};

use crate::reading::find_end;

/// Returns the three digits of the status code and the body of the response `reply` (RFC 9112
/// sections 4 and 2.1). If the head doesn't end, the body is empty. If `reply` has fewer than 12
/// bytes, digits are missing. Allocates nothing.
pub fn reply_parts(reply: &[u8]) -> (&[u8], &[u8])
    ensures status { result.0.now ≡ status_in reply.now }
    ensures body { result.1.now ≡ body_behind reply.now }
{
    let size = reply.len();
    let body = find_end(reply, 0).unwrap_or(size);
    (&reply[size.min(9)..size.min(12)], &reply[body..])
}
