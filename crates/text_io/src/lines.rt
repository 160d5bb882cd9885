//! Splits a text into lines and a line into words.
ghost use Rattle.std.specs.Prelude.{◌≡◌, ◌==◌, IfOk, map, option_map, position};
ghost use Rattle.text_io.specs.Lines.{lines, word_of, without_end, words};

use std::alloc::{AllocError, Global};

/// Returns the lines of `text` without their LF. The last line may lack one.
///
/// # Errors
///
/// Fails only if an allocation fails.
pub fn lines_of(alloc: Global, text: &[u8]) -> Result<Vec<&[u8]>, AllocError>
    ensures { IfOk result (λ found. map (λ l. l.now) found.items ≡ lines text.now) }
{
    if text.is_empty() {
        return Ok(Vec::new(alloc));
    }
    without_end(text).split(|b| *b == b'\n').collect(alloc)
}

// Removes the LF at the end of `text`, if there is one.
fn without_end(text: &[u8]) -> &[u8]
    ensures { result.now ≡ without_end text.now }
{
    if text.ends_with(b"\n") {
        &text[..text.len() - 1]
    } else {
        text
    }
}

/// Returns the words of `line`, which are separated by single spaces. An empty line has one word,
/// the empty one.
///
/// # Errors
///
/// Fails only if an allocation fails.
pub fn words_of(alloc: Global, line: &[u8]) -> Result<Vec<&[u8]>, AllocError>
    ensures { IfOk result (λ found. map (λ w. w.now) found.items ≡ words line.now) }
{
    line.split(|b| *b == b' ').collect(alloc)
}

/// Splits `text` at its first space. Returns `None` if it has no space.
pub fn word_of(text: &[u8]) -> Option<(&[u8], &[u8])>
    ensures { option_map (λ p. (p.0.now, p.1.now)) result ≡ word_of text.now }
{
    let at = space_in(text)?;
    Some((&text[..at], &text[at + 1..]))
}

// Returns the position of the first space.
fn space_in(text: &[u8]) -> Option<usize>
    ensures { result ≡ position (λ b. b == 32) text.now }
{
    text.iter().position(|b| *b == b' ')
}
