//! The expected output of a connection.
use crate::fault::CaseFault;
use crate::text::{Line, put_bytes};
use std::alloc::{AllocError, Global};

/// The content type of all responses except reports.
pub const JSON: &str = "application/json";

/// The content type of reports.
pub const TEXT: &str = "text/plain";

/// The expected output of a connection.
#[derive(Drop)]
pub enum Wanted {
    /// Any output, but no failure without a cause.
    Any,
    /// No output: the message is incomplete.
    Nothing,
    /// Exactly these bytes.
    Bytes(Vec<u8>),
}

/// Returns the bytes of a response with the given body. `allow` is the method for status 405.
pub fn reply_bytes(
    alloc: Global,
    status: u16,
    kind: &str,
    allow: Option<&str>,
    body: &[u8],
) -> Result<Vec<u8>, AllocError> {
    let phrase = phrase_of(status);
    let size = body.len();
    let mut text = format!(in alloc;
        "HTTP/1.1 {status} {phrase}\r\nContent-Type: {kind}\r\nContent-Length: {size}\r\n\
        Connection: close\r\n"
    )?;
    if let Some(method) = allow {
        text.push_str("Allow: ")?;
        text.push_str(method)?;
        text.push_str("\r\n")?;
    }
    text.push_str("\r\n")?;
    let mut bytes = text.into_bytes();
    bytes.extend_from_slice(body)?;
    Ok(bytes)
}

// Returns the reason phrase of a status (RFC 9110, section 15; RFC 6585, section 5).
fn phrase_of(status: u16) -> &'static str {
    match status {
        200 => "OK",
        400 => "Bad Request",
        404 => "Not Found",
        405 => "Method Not Allowed",
        409 => "Conflict",
        413 => "Payload Too Large",
        431 => "Request Header Fields Too Large",
        _ => "Service Unavailable",
    }
}

/// Returns the expected output that the lines `answers` after a request describe.
///
/// # Errors
///
/// - `Form`: there is no such line, or it is malformed.
/// - `Memory`: an allocation fails.
pub fn wanted_of(alloc: Global, line: u64, answers: &[Line]) -> Result<Wanted, CaseFault> {
    let Some((first, others)) = answers.split_first() else {
        return Err(CaseFault::Form { line });
    };
    let text = first.text.as_str();
    match text {
        "any" => return Ok(Wanted::Any),
        "nothing" => return Ok(Wanted::Nothing),
        _ => {}
    }
    let bytes = if text.starts_with("HTTP/") {
        spelt(alloc, answers)?
    } else {
        short_reply(alloc, text, others)?
    };
    match bytes {
        Some(bytes) => Ok(Wanted::Bytes(bytes)),
        None => Err(CaseFault::Form { line: first.number }),
    }
}

fn spelt(alloc: Global, answers: &[Line]) -> Result<Option<Vec<u8>>, AllocError> {
    let mut bytes = Vec::new(alloc);
    for answer in answers {
        if !put_bytes(&mut bytes, answer.text.as_str())? {
            return Ok(None);
        }
    }
    Ok(Some(bytes))
}

// Returns a response from its short form: a status with a body, with the lines of a report, or with
// the name of a fixed body.
fn short_reply(alloc: Global, first: &str, others: &[Line]) -> Result<Option<Vec<u8>>, AllocError> {
    let Some((status, rest)) = first.split_once(' ') else {
        return Ok(None);
    };
    let Ok(status) = status.parse::<u16>() else {
        return Ok(None);
    };
    if rest.starts_with('{') {
        return Ok(Some(reply_bytes(alloc, status, JSON, None, rest.as_bytes())?));
    }
    if status != 200 {
        return fixed_reply(alloc, status, rest);
    }
    let mut body = format!(in alloc; "{rest}\n")?;
    for line in others {
        body.push_str(line.text.as_str())?;
        body.push('\n')?;
    }
    let bytes = reply_bytes(alloc, status, TEXT, None, body.as_bytes())?;
    Ok(Some(bytes))
}

fn fixed_reply(alloc: Global, status: u16, name: &str) -> Result<Option<Vec<u8>>, AllocError> {
    let (allow, name) = match name {
        "GET" | "POST" => (Some(name), "method"),
        _ => (None, name),
    };
    let body = format!(in alloc; "{{\"code\":{status},\"refused\":\"{name}\"}}")?;
    let bytes = reply_bytes(alloc, status, JSON, allow, body.as_bytes())?;
    Ok(Some(bytes))
}
