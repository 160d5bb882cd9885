//! Finds the first row with too many fields before the crate `csv` reads it. `csv` allocates eight
//! bytes for each field of a row, and another sixteen for each field of the first row. A row with
//! millions of commas therefore needs a lot of memory.
ghost use Rattle.std.specs.Prelude.{◌≡◌, ◌≤◌, IfSome, length};
ghost use Rattle.csv.specs.declared.parser.State.TheVariants as st;
ghost use Rattle.batch_import.specs.Records.{records_of};
ghost use Rattle.batch_import.specs.WideRows.{IsWideAt, wide_after};

use crate::grammar::{Effect, Place, step, without_mark};

/// The maximum number of commas of a valid batch file: five in the header and in each of 4,096
/// rows.
const MOST_COMMAS: usize = 5 * 4097;

/// The number of bytes in which a `u8` counts commas. It is a multiple of the number of bytes that
/// are compared at once.
const PART: usize = 224;

/// Returns the number of CSV records before the first one with more than six fields. Only a file
/// with more commas than any valid batch file is searched; for all other files the result is
/// `None`. Allocates nothing.
pub fn before_wide(raw: &[u8]) -> Option<usize>
    ensures { IfSome result (IsWideAt (records_of raw.now)) }
{
    let text = without_mark(raw);
    if commas(text) <= MOST_COMMAS {
        return None;
    }
    first_wide(text)
}

fn commas(text: &[u8]) -> usize {
    let mut commas = 0usize;
    for part in text.chunks(PART) {
        commas = commas.saturating_add(usize::from(commas_of(part)));
    }
    commas
}

// Counts the commas of a short text. The counter is a `u8`, so that sixteen bytes are compared at
// once.
fn commas_of(part: &[u8]) -> u8
    requires { length part.now ≤ 255 }
    ensures { result ≤ length part.now }
{
    let mut commas = 0;
    for byte in part {
        commas += u8::from(*byte == b',');
    }
    commas
}

// Returns the number of CSV records before the first one with more than six fields.
fn first_wide(text: &[u8]) -> Option<usize>
    ensures { result ≡ wide_after st.StartRecord 0 0 text.now }
{
    let mut place = Place::Between;
    let mut records = 0usize;
    let mut fields = 0u8;
    for byte in text {
        let (next, effect) = step(place, *byte);
        place = next;
        match effect {
            Effect::Skip | Effect::Keep => {}
            Effect::EndField => {
                // The sixth field ends, and a seventh begins.
                if fields > 4 {
                    return Some(records);
                }
                fields += 1;
            }
            Effect::EndRow => {
                records += 1;
                fields = 0;
            }
        }
    }
    None
}
