//! Reads a file of worked examples: its cases, their lines, and the short forms in them.
use crate::fault::CaseFault;
use std::alloc::{AllocError, Global};

/// A line of a case, with its short forms expanded.
#[derive(Drop)]
pub struct Line {
    /// The number of the line in the file, from 1.
    pub number: u64,
    /// `true` if the line is expected output. `text` lacks the two spaces at its start.
    pub is_answer: bool,
    pub text: String,
}

/// A case: the lines between two titles.
#[derive(Drop)]
pub struct Case {
    /// The line number of the title.
    pub number: u64,
    pub lines: Vec<Line>,
}

/// The expected output after a repeated line.
#[derive(Clone, Copy, PartialEq, Eq)]
pub enum Repeats {
    /// Only the line is repeated.
    Alone,
    /// The expected output after the line applies to each repetition.
    WithAnswers,
}

// A line of the file, with its short forms.
#[derive(Clone, Copy)]
struct Raw<'a> {
    number: u64,
    is_answer: bool,
    range: Option<(u64, u64)>,
    text: &'a str,
}

/// Reads the cases of a file.
///
/// # Errors
///
/// - `Form`: a line is before the first title.
/// - `Memory`: an allocation fails.
pub fn cases(alloc: Global, text: &str, repeats: Repeats) -> Result<Vec<Case>, CaseFault> {
    let mut cases = Vec::new(alloc);
    let mut title = None;
    let mut lines = Vec::new(alloc);
    let mut number = 0u64;
    for line in text.split('\n') {
        number = number.saturating_add(1);
        if line.starts_with("== ") {
            if let Some(title) = title {
                cases.push(made(alloc, title, lines.as_slice(), repeats)?)?;
            }
            title = Some(number);
            lines = Vec::new(alloc);
        } else if title.is_some() {
            if !line.starts_with('#') {
                lines.push(raw_line(number, line))?;
            }
        } else if !line.is_empty() && !line.starts_with('#') {
            return Err(CaseFault::Form { line: number });
        }
    }
    if let Some(title) = title {
        cases.push(made(alloc, title, lines.as_slice(), repeats)?)?;
    }
    Ok(cases)
}

fn raw_line(number: u64, line: &str) -> Raw<'_> {
    let (is_answer, line) = match line.strip_prefix("  ") {
        Some(answer) => (true, answer),
        None => (false, line),
    };
    match repeated(line) {
        Some((range, text)) => Raw {
            number,
            is_answer,
            range: Some(range),
            text,
        },
        None => Raw {
            number,
            is_answer,
            range: None,
            text: line,
        },
    }
}

// Returns the range and the line after `repeat`.
fn repeated(line: &str) -> Option<((u64, u64), &str)> {
    let (first, rest) = line.strip_prefix("repeat ")?.split_once(' ')?;
    let (last, text) = rest.split_once(' ')?;
    Some(((first.parse().ok()?, last.parse().ok()?), text))
}

// Returns the case with these lines, except the empty ones at its end.
fn made(
    alloc: Global,
    number: u64,
    raws: &[Raw<'_>],
    repeats: Repeats,
) -> Result<Case, AllocError> {
    let mut lines = Vec::new(alloc);
    let mut are_repeated = false;
    let raws = raws.get(..filled(raws)).unwrap_or(raws);
    for (i, raw) in raws.iter().enumerate() {
        if raw.is_answer && are_repeated {
            continue;
        }
        are_repeated = false;
        let Some((first, last)) = raw.range else {
            put(alloc, &mut lines, raw, None)?;
            continue;
        };
        are_repeated = repeats == Repeats::WithAnswers && !raw.is_answer;
        let behind = raws.get(i.saturating_add(1)..).unwrap_or(&[]);
        for n in first..last.saturating_add(1) {
            put(alloc, &mut lines, raw, Some(n))?;
            if are_repeated {
                put_answers(alloc, &mut lines, behind, n)?;
            }
        }
    }
    Ok(Case { number, lines })
}

// Returns the number of lines without the empty ones at the end.
fn filled(raws: &[Raw<'_>]) -> usize {
    let mut count = 0usize;
    for (i, raw) in raws.iter().enumerate() {
        if raw.is_answer || !raw.text.is_empty() {
            count = i.saturating_add(1);
        }
    }
    count
}

// Adds the expected output at the start of `raws` to `lines`.
fn put_answers(
    alloc: Global,
    lines: &mut Vec<Line>,
    raws: &[Raw<'_>],
    n: u64,
) -> Result<(), AllocError> {
    for raw in raws {
        if !raw.is_answer {
            break;
        }
        put(alloc, lines, raw, Some(n))?;
    }
    Ok(())
}

fn put(
    alloc: Global,
    lines: &mut Vec<Line>,
    raw: &Raw<'_>,
    n: Option<u64>,
) -> Result<(), AllocError> {
    lines.push(Line {
        number: raw.number,
        is_answer: raw.is_answer,
        text: written_out(alloc, raw.text, n)?,
    })?;
    Ok(())
}

// Returns a text with its short forms expanded.
fn written_out(alloc: Global, text: &str, n: Option<u64>) -> Result<String, AllocError> {
    let mut out = String::new(alloc);
    for (i, part) in text.split('{').enumerate() {
        if i == 0 {
            out.push_str(part)?;
        } else if let Some((made, behind)) = short_form(alloc, part, n)? {
            out.push_str(made.as_str())?;
            out.push_str(behind)?;
        } else {
            out.push('{')?;
            out.push_str(part)?;
        }
    }
    Ok(out)
}

// Returns the expansion of the short form at the start, and the rest after it.
fn short_form<'a>(
    alloc: Global,
    part: &'a str,
    n: Option<u64>,
) -> Result<Option<(String, &'a str)>, AllocError> {
    let Some((inside, behind)) = part.split_once('}') else {
        return Ok(None);
    };
    let made = match n {
        Some(n) if inside == "n" => format!(in alloc; "{n}")?,
        Some(n) if inside == "x" => format!(in alloc; "{n:04X}")?,
        Some(n) if inside == "b" => format!(in alloc; "{:02X}", n % 256)?,
        _ => match many_of(inside) {
            Some((piece, count)) => piece.repeat(alloc, count)?,
            None => return Ok(None),
        },
    };
    Ok(Some((made, behind)))
}

// Returns a text and its number of repetitions.
fn many_of(inside: &str) -> Option<(&str, usize)> {
    let (piece, count) = inside.rsplit_once('*')?;
    Some((piece, count.parse().ok()?))
}

// The position within an escape.
#[derive(Clone, Copy, PartialEq, Eq)]
enum Spelling {
    Plain,
    Behind,
    High,
    Low(u8),
}

/// Adds the bytes of a text, in which `\r`, `\n`, `\t`, `\\` and `\xHH` each represent one byte.
/// Returns `false` if the text has another escape.
pub fn put_bytes(bytes: &mut Vec<u8>, text: &str) -> Result<bool, AllocError> {
    let mut spelling = Spelling::Plain;
    for byte in text.bytes() {
        spelling = match (spelling, byte) {
            (Spelling::Plain, b'\\') => Spelling::Behind,
            (Spelling::Plain, _) => put_byte(bytes, byte)?,
            (Spelling::Behind, b'r') => put_byte(bytes, b'\r')?,
            (Spelling::Behind, b'n') => put_byte(bytes, b'\n')?,
            (Spelling::Behind, b't') => put_byte(bytes, b'\t')?,
            (Spelling::Behind, b'\\') => put_byte(bytes, b'\\')?,
            (Spelling::Behind, b'x') => Spelling::High,
            (Spelling::Behind, _) => return Ok(false),
            (Spelling::High, _) => match digit(byte) {
                Some(high) => Spelling::Low(high),
                None => return Ok(false),
            },
            (Spelling::Low(high), _) => match digit(byte) {
                Some(low) => put_byte(bytes, high.wrapping_mul(16).wrapping_add(low))?,
                None => return Ok(false),
            },
        };
    }
    Ok(spelling == Spelling::Plain)
}

fn put_byte(bytes: &mut Vec<u8>, byte: u8) -> Result<Spelling, AllocError> {
    bytes.push(byte)?;
    Ok(Spelling::Plain)
}

fn digit(byte: u8) -> Option<u8> {
    match byte {
        b'0'..=b'9' => Some(byte - b'0'),
        b'A'..=b'F' => Some(byte - b'A' + 10),
        b'a'..=b'f' => Some(byte - b'a' + 10),
        _ => None,
    }
}
