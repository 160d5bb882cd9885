//! Finds a row of a batch file, and the line at which it begins.
ghost use Rattle.std.specs.Prelude.{◌≡◌, ◌≤◌, ◌<◌, ◌-◌, ◌+◌, ℕ, List, false, length};
ghost use Rattle.std.specs.List.{prefix_len};
ghost use Rattle.csv.specs.declared.parser.State.TheVariants as st;
ghost use Rattle.batch_import.specs.Fields.{field};
ghost use Rattle.import_causes.specs.RowTexts.{IsOf};
ghost use Rattle.import_causes.specs.Starts.{after_rows, ends_line, from_row, is_line_byte};
ghost use Rattle.import_causes.specs.Starts.{label_of, line_at, line_ends, start_at};

use crate::fields::RowText;
use batch_import::grammar::{Place, is_row_end, step, without_mark};
use store_data::Name;

/// The words that identify a row of a batch file in an event line. They contain no card data unless
/// it has the form of a name.
#[derive(Clone, Copy, PartialEq, Eq)]
pub enum RowLabel {
    /// Field 1 of the row, which is a name.
    Record(Name),
    /// The number of bytes of field 1, which isn't a name.
    Bytes(u64),
}

/// The start of a row of a batch file.
#[derive(Clone, Copy, PartialEq, Eq)]
pub struct RowStart {
    /// The number of the line at which the row begins. The first line is line 1.
    pub line: u64,
    /// The label of the row.
    pub label: RowLabel,
}

/// Returns the bytes of the file `raw` from the first byte of row `row` on, or no bytes if it
/// doesn't have this row. Row 1 is the header.
pub(crate) fn from_row(raw: &[u8], row: u32) -> &[u8]
    ensures value { result.now ≡ from_row row raw.now }
    ensures bound { length result.now ≤ length raw.now }
{
    let rest = after_rows(without_mark(raw), row.saturating_sub(1));
    &rest[line_ends_len(rest)..]
}

// Returns the bytes after the first `rows` rows of `text`, or no bytes if there are fewer rows.
fn after_rows(text: &[u8], rows: u32) -> &[u8]
    ensures value { result.now ≡ after_rows rows st.StartRecord text.now }
    ensures bound { length result.now ≤ length text.now }
{
    if rows == 0 {
        return text;
    }
    let mut place = Place::Between;
    let mut left = rows;
    for (i, byte) in text.iter().enumerate() {
        let (next, effect) = step(place, *byte);
        place = next;
        if is_row_end(effect) {
            if left == 1 {
                return &text[i + 1..];
            }
            left -= 1;
        }
    }
    &text[text.len()..]
}

// Returns the number of bytes of the line ends at the start of `text`.
fn line_ends_len(text: &[u8]) -> usize
    ensures value { result ≡ prefix_len is_line_byte text.now }
    ensures bound { result ≤ length text.now }
{
    text.iter().take_while(|byte| is_line_byte(**byte)).count()
}

fn is_line_byte(byte: u8) -> bool
    ensures { result ≡ is_line_byte byte }
{
    byte == b'\r' || byte == b'\n'
}

/// Returns the start of the row with the first fields `row`, or `None` if `rest` is empty. `rest`
/// are the bytes of the file `raw` from this row on.
pub(crate) fn start_at(raw: &[u8], rest: &[u8], row: &RowText) -> Option<RowStart>
    requires { length rest.now ≤ length raw.now }
    ensures { (fields : List (List ℕ)) → IsOf row.now fields
        → result ≡ start_at raw.now rest.now fields }
{
    if rest.is_empty() {
        return None;
    }
    Some(RowStart {
        line: line_at(raw, rest.len()),
        label: label_of(row.field(0)),
    })
}

// Returns the number of the line at which the last `left` bytes of `raw` begin.
fn line_at(raw: &[u8], left: usize) -> u64
    requires { left ≤ length raw.now }
    ensures { result ≡ line_at raw.now left }
{
    line_ends(&raw[..raw.len() - left]) as u64 + 1
}

// Returns the number of line ends in `text`: each CR, LF, and CR LF.
fn line_ends(text: &[u8]) -> usize
    ensures value { result ≡ line_ends false text.now }
    ensures bound { result ≤ length text.now }
{
    let mut ends = 0;
    let mut after_cr = false;
    for byte in text {
        if ends_line(after_cr, *byte) {
            ends += 1;
        }
        after_cr = *byte == b'\r';
    }
    ends
}

// Returns `true` if `byte` ends a line. An LF after a CR doesn't end another one.
fn ends_line(after_cr: bool, byte: u8) -> bool
    ensures { result ≡ ends_line after_cr byte }
{
    byte == b'\r' || byte == b'\n' && !after_cr
}

fn label_of(text: &[u8]) -> RowLabel
    ensures { result ≡ label_of text.now }
{
    match Name::new(text) {
        Some(name) => RowLabel::Record(name),
        None => RowLabel::Bytes(text.len() as u64),
    }
}
