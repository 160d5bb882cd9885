//! Writes a complete text to a writer.
ghost use Rattle.std.specs.Prelude.{◌≤◌, length, take};
ghost use Rattle.std.specs.Io.KnownBytes.{Appends};
ghost use Rattle.text_io.specs.Written.{Writes};

use std::error::Error;
use std::fmt;
use std::io::Write;

/// The error of a write that failed or accepted no bytes.
#[derive(Clone, Copy, Debug, PartialEq, Eq)]
pub struct WriteFailed;

impl fmt::Display for WriteFailed {
    ghost use Rattle.std.specs.Prelude.{Some, codes};

    ghost output = { λ _. Some (codes "the writer failed") };

    fn fmt<W: fmt::Write>(&self, f: &mut fmt::Formatter<W>) -> fmt::Result {
        f.write_str("the writer failed")
    }
}

impl Error for WriteFailed {}

/// Writes `text` to `writer`.
///
/// # Errors
///
/// Fails if a write fails or accepts no bytes. Only a prefix of `text` was written then.
pub fn write_text<W: Write>(writer: &mut W, text: &[u8]) -> Result<(), WriteFailed>
    ensures { Writes (W.contents writer.old) (W.contents writer.new) text.now result }
{
    let mut at = 0;
    while at < text.len() {
        let taken = write_some(writer, &text[at..]);
        if taken == 0 {
            return Err(WriteFailed);
        }
        at += taken;
    }
    Ok(())
}

// Returns the number of bytes that the writer accepted. A failed write accepts none.
fn write_some<W: Write>(writer: &mut W, text: &[u8]) -> usize
    ensures bound { result ≤ length text.now }
    ensures bytes { Appends (W.contents writer.old) (W.contents writer.new) (take result text.now) }
{
    writer.write(text).unwrap_or(0)
}
