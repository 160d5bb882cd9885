//! Tests the head of a message: HTTP/1.1 (RFC 9112), restricted by this project's profile. The
//! tests allocate nothing.
ghost use Rattle.std.specs.Prelude.{◌≡◌, ◌+◌, ◌&&◌, All, length, map, min, nat_lt, true};
ghost use Rattle.std.specs.List.{list_all};
ghost use Rattle.std.specs.Char.{is_ascii_digit};
ghost use Rattle.std.specs.Str.Parse.{digits_value};
ghost use Rattle.text_io.specs.Inputs.{most_input};
ghost use Rattle.httparse.specs.Spans.{IsHeaderWithin, header_bytes};
ghost use Rattle.http_messages.specs.Heads.{IsJudged, body_size, has_bare_lf, is_named, pairs};
ghost use Rattle.http_messages.specs.Heads.{size_text};
ghost use Rattle.http_messages.specs.HeadTests.{IsRead, parts, found_of, one_more, size_by, values};

use crate::fixed::FixedReply;
use crate::flaw::Flaw;
use httparse::Status;
use httparse::spans::{EMPTY_HEADER_SPAN, HeaderSpan, RequestSpans, parse_request};
use text_io::{MOST_INPUT, are_digits};

/// The maximum size of a body, in bytes.
const MOST_BODY: usize = MOST_INPUT as usize;

/// The maximum number of pairs CR LF in a head: the request line, 32 header lines and the empty
/// line at the end (this project's profile).
const MOST_PAIRS: usize = 34;

/// The method and the path of a head, and the size of its body.
#[derive(Clone, Copy)]
pub(crate) struct HeadParts<'a> {
    pub method: &'a [u8],
    pub target: &'a [u8],
    pub size: usize,
}

// The values of the fields with the same name: no value, one, or several.
#[derive(Clone, Copy)]
enum Named<'a> {
    None,
    One(&'a [u8]),
    Many,
}

/// Returns the parts of the complete head `head`.
///
/// # Errors
///
/// Returns the fixed response of the first item that applies:
///
/// - `Malformed`: `head` contains an LF without a CR before it.
/// - `HeadTooLarge`: `head` contains more than 34 pairs CR LF.
/// - `Malformed`: the whole of `head` doesn't match the grammar of HTTP/1.1 (RFC 9112).
/// - `Malformed`: `head` has a field `Transfer-Encoding`, several fields `Content-Length`, or a
///   `Content-Length` that isn't a decimal number.
/// - `TooLarge`: `Content-Length` is larger than `MOST_BODY`.
pub(crate) fn judge(head: &[u8]) -> Result<HeadParts<'_>, FixedReply>
    ensures { IsJudged head.now (parts result) }
{
    if has_bare_lf(head) {
        return Err(FixedReply::Malformed(Flaw::BareLf));
    }
    if pairs(head) > MOST_PAIRS {
        return Err(FixedReply::HeadTooLarge);
    }
    let mut headers = [EMPTY_HEADER_SPAN; MOST_PAIRS];
    let Some(spans) = read(head, &mut headers) else {
        return Err(FixedReply::Malformed(Flaw::Grammar));
    };
    if spans.len != head.len() {
        return Err(FixedReply::Malformed(Flaw::Grammar));
    }
    let size = body_size(head, &headers[..spans.headers])?;
    Ok(HeadParts {
        method: spans.method.of(head),
        target: spans.path.of(head),
        size,
    })
}

// Returns the parts of the head that `head` starts with, or `None` if that head is invalid or has
// more fields than `headers` can hold.
fn read(head: &[u8], headers: &mut [HeaderSpan]) -> Option<RequestSpans>
    ensures { IsRead head.now (length headers.old) headers.new result }
{
    match parse_request(head, headers) {
        Ok(status) => match status {
            Status::Complete(spans) => Some(spans),
            Status::Partial => None,
        },
        Err(_) => None,
    }
}

// Returns `true` if `head` contains an LF without a CR before it.
fn has_bare_lf(head: &[u8]) -> bool
    ensures { result ≡ has_bare_lf head.now }
{
    let mut cr = false;
    for byte in head {
        if *byte == b'\n' && !cr {
            return true;
        }
        cr = *byte == b'\r';
    }
    false
}

// Returns the number of pairs CR LF in `head`.
fn pairs(head: &[u8]) -> usize
    ensures { result ≡ pairs head.now }
{
    let mut cr = false;
    let mut pairs = 0;
    for byte in head {
        if *byte == b'\n' && cr {
            pairs += 1;
        }
        cr = *byte == b'\r';
    }
    pairs
}

// Returns the size of the body after a head with the fields `headers` (RFC 9112 section 6.3).
#[tactic(auto, using(crate::proofs::HeadLemmas::body_size_by))]
fn body_size(head: &[u8], headers: &[HeaderSpan]) -> Result<usize, FixedReply>
    requires { All (IsHeaderWithin (length head.now)) headers.now }
    ensures { result ≡ body_size (map (header_bytes head.now) headers.now) }
{
    match find_named(head, headers, b"transfer-encoding") {
        Named::None => size_by(find_named(head, headers, b"content-length")),
        Named::One(_) | Named::Many => Err(FixedReply::Malformed(Flaw::TransferEncoding)),
    }
}

// Returns the size of the body, given the values of `Content-Length`.
fn size_by(found: Named<'_>) -> Result<usize, FixedReply>
    ensures { result ≡ size_by (found_of found.entry) }
{
    match found {
        Named::None => Ok(0),
        Named::One(text) => size_text(text),
        Named::Many => Err(FixedReply::Malformed(Flaw::ContentLength)),
    }
}

// Returns the values of the fields with the name `name`. Names are compared without regard to ASCII
// case (RFC 9110 section 5.1).
fn find_named<'a>(head: &'a [u8], headers: &[HeaderSpan], name: &[u8]) -> Named<'a>
    requires { All (IsHeaderWithin (length head.now)) headers.now }
    ensures { found_of result ≡ values name.now (map (header_bytes head.now) headers.now) }
{
    let mut found = Named::None;
    for header in headers {
        if is_named(head, header, name) {
            found = found_more(found, header.value.of(head));
        }
    }
    found
}

fn is_named(head: &[u8], header: &HeaderSpan, name: &[u8]) -> bool
    requires { IsHeaderWithin (length head.now) header.now }
    ensures { result ≡ is_named name.now (header_bytes head.now header.now) }
{
    header.name.of(head).eq_ignore_ascii_case(name)
}

// Adds `value` to the values in `found`.
fn found_more<'a>(found: Named<'a>, value: &'a [u8]) -> Named<'a>
    ensures { found_of result ≡ one_more (found_of found.entry) value.now }
{
    match found {
        Named::None => Named::One(value),
        Named::One(_) | Named::Many => Named::Many,
    }
}

// Returns the number in `text`, the value of `Content-Length` (RFC 9110 section 8.6): one or more
// decimal digits, at most `MOST_BODY`.
#[tactic(auto, unfolding(crate::specs::Heads::size_text))]
fn size_text(text: &[u8]) -> Result<usize, FixedReply>
    ensures { result ≡ size_text text.now }
{
    if !is_decimal(text) {
        return Err(FixedReply::Malformed(Flaw::ContentLength));
    }
    let size = capped(text);
    if size > MOST_BODY {
        return Err(FixedReply::TooLarge);
    }
    Ok(size)
}

fn is_decimal(text: &[u8]) -> bool
    ensures { result ≡ (nat_lt 0 (length text.now) && list_all is_ascii_digit text.now) }
{
    !text.is_empty() && are_digits(text)
}

// Returns the number that `digits` stand for, or `MOST_BODY + 1` if it is larger than `MOST_BODY`.
fn capped(digits: &[u8]) -> usize
    requires { list_all is_ascii_digit digits.now ≡ true }
    ensures { result ≡ min (digits_value 10 digits.now) (most_input + 1) }
{
    let mut number = 0;
    for digit in digits {
        number = (number * 10 + usize::from(*digit - b'0')).min(MOST_BODY + 1);
    }
    number
}
