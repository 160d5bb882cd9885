//! Extracts the status and the refusal from the first bytes of a response.
ghost use Rattle.std.specs.Prelude.{◌≡◌, ◌≤◌, length, option_map};
ghost use Rattle.std.specs.Char.{is_ascii_digit};
ghost use Rattle.std.specs.List.{prefix_len};
ghost use Rattle.server_run.specs.Words.{digits_in, is_word_byte, past_mark, refusal_in};
ghost use Rattle.server_run.specs.Words.{status_digits, word_in};

use http_messages::reply_parts;
use std::str::from_utf8;

/// Returns the digits of the status of the response `reply`. The text is empty if `reply` doesn't
/// contain the status.
pub fn status_digits(reply: &[u8]) -> &str
    ensures { result.now ≡ status_digits reply.now }
{
    let (status, _body) = reply_parts(reply);
    digits_in(status)
}

/// Returns the code and name of a refusal from the first bytes of a response body, or `None` if it
/// isn't a refusal.
pub fn refusal_in(body: &[u8]) -> Option<(&str, &str)>
    ensures { option_map (λ r. (r.0.now, r.1.now)) result ≡ refusal_in body.now }
{
    let rest = body.strip_prefix(b"{\"code\":")?;
    let code = digits_in(rest);
    let name = past_mark(&rest[code.len()..]).strip_prefix(b",\"refused\":\"")?;
    Some((code, word_in(name)))
}

// Skips the client's release mark, which precedes the name in the refusal of a released number.
fn past_mark(text: &[u8]) -> &[u8]
    ensures { result.now ≡ past_mark text.now }
{
    match text.strip_prefix(b",\"mark\":") {
        Some(mark) => &mark[digits_len(mark)..],
        None => text,
    }
}

// Returns the digits at the start of `text`.
fn digits_in(text: &[u8]) -> &str
    ensures { result.now ≡ digits_in text.now }
{
    from_utf8(&text[..digits_len(text)]).unwrap()
}

fn digits_len(text: &[u8]) -> usize
    ensures value { result ≡ prefix_len is_ascii_digit text.now }
    ensures bound { result ≤ length text.now }
{
    text.iter().take_while(|b| b.is_ascii_digit()).count()
}

// Returns the lower-case letters and dashes at the start of `text`.
fn word_in(text: &[u8]) -> &str
    ensures { result.now ≡ word_in text.now }
{
    from_utf8(&text[..word_len(text)]).unwrap()
}

fn word_len(text: &[u8]) -> usize
    ensures value { result ≡ prefix_len is_word_byte text.now }
    ensures bound { result ≤ length text.now }
{
    text.iter().take_while(|b| is_word_byte(**b)).count()
}

// Returns `true` if `byte` is a lower-case letter or a dash.
fn is_word_byte(byte: u8) -> bool
    ensures { result ≡ is_word_byte byte }
{
    byte.is_ascii_lowercase() || byte == b'-'
}
