//! Writes the heads of responses.
ghost use Rattle.std.specs.Prelude.{◌≡◌, ◌+◌, ◌≤◌, ◌++◌, length, take, codes};
ghost use Rattle.http.specs.StatusCode.{code_digits};
ghost use Rattle.http_messages.specs.Texts.{allow_text, head_text, phrase, status_text, type_text};

use http::StatusCode;
use itoa::Buffer;

/// The kind of a response's content, which determines the lines `Content-Type` and `Allow`.
#[derive(Clone, Copy, Debug, PartialEq, Eq)]
pub enum Content {
    /// JSON.
    Json,
    /// The report of a batch, as text.
    Report,
    /// JSON, with the only method that the path allows. The message had a different method.
    OnlyMethod(Method),
}

/// The method that a path allows.
#[derive(Clone, Copy, Debug, PartialEq, Eq)]
pub enum Method {
    Get,
    Post,
}

/// Writes the head of a response to the start of `out`, and returns its length (RFC 9112 sections 4
/// and 5). The response has the status code `status`, content of the kind `kind`, and a body of
/// `size` bytes. If no response of the server has this status code, 503 is written. Allocates
/// nothing.
pub fn reply_head(status: u16, kind: Content, size: usize, out: &mut [u8; 256]) -> usize
    ensures head { take result out.new ≡ head_text status kind size }
    ensures room { result ≤ 256 }
{
    let mut digits = Buffer::new();
    let at = put(out, 0, b"HTTP/1.1 ");
    let at = put_status(out, at, known(status));
    let at = put(out, at, b"\r\nContent-Type: ");
    let at = put(out, at, type_text(kind).as_bytes());
    let at = put(out, at, b"\r\nContent-Length: ");
    let at = put(out, at, digits.format(size).as_bytes());
    let at = put(out, at, b"\r\nConnection: close\r\n");
    let at = put(out, at, allow_text(kind).as_bytes());
    put(out, at, b"\r\n")
}

// Writes `text` to `out` at position `at`, and returns the position after it.
fn put(out: &mut [u8; 256], at: usize, text: &[u8]) -> usize
    requires { at + length text.now ≤ 256 }
    ensures text { take result out.new ≡ take at out.old ++ text.now }
    ensures end { result ≡ at + length text.now }
{
    let end = at + text.len();
    out[at..end].copy_from_slice(text);
    end
}

// Writes the status code and its reason phrase to `out` at position `at`, and returns the position
// after them.
fn put_status(out: &mut [u8; 256], at: usize, status: StatusCode) -> usize
    requires room { at + 35 ≤ 256 }
    requires few { length (phrase status) ≤ 31 }
    ensures text { take result out.new ≡ take at out.old
        ++ (code_digits status ++ codes " " ++ phrase status) }
    ensures end { result ≡ at + 4 + length (phrase status) }
{
    let at = put(out, at, status.as_str().as_bytes());
    let at = put(out, at, b" ");
    put(out, at, words(status).as_bytes())
}

// Returns the reason phrase of `status`.
#[tactic(auto, unfolding(crate::specs::Texts::phrase))]
fn words(status: StatusCode) -> &'static str
    ensures { result.now ≡ phrase status }
{
    status.canonical_reason().unwrap_or("")
}

// Returns the status code to send: `status`, or 503 if no response of the server has it.
#[tactic(auto, unfolding(crate::specs::Texts::phrase))]
fn known(status: u16) -> StatusCode
    ensures text { code_digits result ++ codes " " ++ phrase result ≡ status_text status }
    ensures few { length (phrase result) ≤ 31 }
{
    match status {
        200 => StatusCode::OK,
        400 => StatusCode::BAD_REQUEST,
        404 => StatusCode::NOT_FOUND,
        405 => StatusCode::METHOD_NOT_ALLOWED,
        409 => StatusCode::CONFLICT,
        413 => StatusCode::PAYLOAD_TOO_LARGE,
        431 => StatusCode::REQUEST_HEADER_FIELDS_TOO_LARGE,
        _ => StatusCode::SERVICE_UNAVAILABLE,
    }
}

fn type_text(kind: Content) -> &'static str
    ensures text { result.now ≡ type_text kind }
    ensures few { length result.now ≤ 16 }
{
    match kind {
        Content::Json | Content::OnlyMethod(_) => "application/json",
        Content::Report => "text/plain",
    }
}

fn allow_text(kind: Content) -> &'static str
    ensures text { result.now ≡ allow_text kind }
    ensures few { length result.now ≤ 13 }
{
    match kind {
        Content::Json | Content::Report => "",
        Content::OnlyMethod(Method::Get) => "Allow: GET\r\n",
        Content::OnlyMethod(Method::Post) => "Allow: POST\r\n",
    }
}
