//! Recognizes a request line at the start of the bytes of a connection.
//!
//! Other bytes that a client sends may be card data, so they never appear in an event line.
ghost use Rattle.std.specs.Prelude.{◌≡◌, ◌≤◌, length, not, option_map};
ghost use Rattle.std.specs.List.{after_first, before_first, list_all, prefix_len};
ghost use Rattle.http_messages.specs.RequestHeads.{is_visible};
ghost use Rattle.http_messages.specs.RequestLines.{is_line_end, is_method, is_request_line};
ghost use Rattle.http_messages.specs.RequestLines.{is_space, is_target, is_target_and_version};
ghost use Rattle.http_messages.specs.RequestLines.{is_token_char, is_version, request_line};

/// The characters of a token, except letters and digits (RFC 9110, section 5.6.2).
const TOKEN_MARKS: &[u8] = b"!#$%&'*+-.^_`|~";

/// Returns the first line of `bytes`, without its end, if CR LF ends it and it has the form of a
/// request line (RFC 9112, section 3).
pub fn request_line(bytes: &[u8]) -> Option<&[u8]>
    ensures { option_map (λ line. line.now) result ≡ request_line bytes.now }
{
    let (line, end) = bytes.split_at(line_len(bytes));
    if end.starts_with(b"\r\n") && is_request_line(line) {
        Some(line)
    } else {
        None
    }
}

// Returns the number of bytes before the first CR or LF.
fn line_len(bytes: &[u8]) -> usize
    ensures value { result ≡ prefix_len (λ b. not (is_line_end b)) bytes.now }
    ensures bound { result ≤ length bytes.now }
{
    bytes.iter().take_while(|b| !is_line_end(**b)).count()
}

fn is_line_end(byte: u8) -> bool
    ensures { result ≡ is_line_end byte }
{
    byte == b'\r' || byte == b'\n'
}

fn is_request_line(line: &[u8]) -> bool
    ensures { result ≡ is_request_line line.now }
{
    let (method, rest) = split_at_space(line);
    is_method(method) && is_target_and_version(rest)
}

fn is_target_and_version(rest: &[u8]) -> bool
    ensures { result ≡ is_target_and_version rest.now }
{
    let (target, version) = split_at_space(rest);
    is_target(target) && is_version(version)
}

// Returns the bytes before the first space, and the bytes after it. Without a space, all bytes are
// before it.
fn split_at_space(text: &[u8]) -> (&[u8], &[u8])
    ensures before { result.0.now ≡ before_first is_space text.now }
    ensures after { result.1.now ≡ after_first is_space text.now }
{
    let (word, rest) = text.split_at(word_len(text));
    match rest {
        [_, rest @ ..] => (word, rest),
        [] => (word, rest),
    }
}

// Returns the number of bytes before the first space.
fn word_len(text: &[u8]) -> usize
    ensures value { result ≡ prefix_len (λ b. not (is_space b)) text.now }
    ensures bound { result ≤ length text.now }
{
    text.iter().take_while(|b| **b != b' ').count()
}

fn is_method(text: &[u8]) -> bool
    ensures { result ≡ is_method text.now }
{
    !text.is_empty() && are_token_chars(text)
}

fn are_token_chars(text: &[u8]) -> bool
    ensures { result ≡ list_all is_token_char text.now }
{
    text.iter().all(|b| is_token_char(*b))
}

fn is_token_char(byte: u8) -> bool
    ensures { result ≡ is_token_char byte }
{
    byte.is_ascii_alphanumeric() || TOKEN_MARKS.contains(&byte)
}

fn is_target(text: &[u8]) -> bool
    ensures { result ≡ is_target text.now }
{
    !text.is_empty() && are_visible(text)
}

fn are_visible(text: &[u8]) -> bool
    ensures { result ≡ list_all is_visible text.now }
{
    text.iter().all(|b| is_visible(*b))
}

fn is_visible(byte: u8) -> bool
    ensures { result ≡ is_visible byte }
{
    b' ' < byte && byte <= b'~'
}

fn is_version(text: &[u8]) -> bool
    ensures { result ≡ is_version text.now }
{
    text.len() == 8
        && text.starts_with(b"HTTP/")
        && text[5].is_ascii_digit()
        && text[6] == b'.'
        && text[7].is_ascii_digit()
}
