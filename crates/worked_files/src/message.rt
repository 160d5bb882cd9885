//! Builds HTTP requests.
use std::alloc::{AllocError, Global};

/// Returns a POST with the given body.
pub fn post(alloc: Global, target: &str, body: &[u8]) -> Result<Vec<u8>, AllocError> {
    let size = body.len();
    let head = format!(in alloc;
        "POST {target} HTTP/1.1\r\nHost: localhost\r\nContent-Length: {size}\r\n\r\n"
    )?;
    let mut bytes = head.into_bytes();
    bytes.extend_from_slice(body)?;
    Ok(bytes)
}

/// Returns a GET.
pub fn get(alloc: Global, target: &str) -> Result<Vec<u8>, AllocError> {
    let head = format!(in alloc; "GET {target} HTTP/1.1\r\nHost: localhost\r\n\r\n")?;
    Ok(head.into_bytes())
}
