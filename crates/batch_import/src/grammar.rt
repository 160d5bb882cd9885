//! The CSV grammar, one byte at a time (RFC 4180, as the crate `csv` reads it with its default
//! settings).
ghost use Rattle.std.specs.Prelude.{◌≡◌, ◌≤◌, length};
ghost use Rattle.csv.specs.Machine.{ends_at_end, in_field, start_field, step};
ghost use Rattle.csv.specs.Reading.{default_config, strip_bom};
ghost use Rattle.batch_import.specs.Grammar.{effect_of, is_row_end, state_of};

/// The position of the next byte in the CSV grammar.
#[derive(Clone, Copy)]
pub enum Place {
    /// Between two rows.
    Between,
    /// Between two rows, after a CR that ended one.
    AfterCr,
    /// At the first byte of a field.
    FieldStart,
    /// In a field that isn't quoted, or after the closing quote of a quoted field.
    InField,
    /// In a quoted field.
    InQuotes,
    /// After a quote in a quoted field, which either closes the field or is the first of a doubled
    /// quote.
    AfterQuote,
}

/// The effect of a byte.
#[derive(Clone, Copy)]
pub enum Effect {
    /// The byte isn't part of a field.
    Skip,
    /// The byte is part of the current field.
    Keep,
    /// The byte ends a field.
    EndField,
    /// The byte ends a field and the row.
    EndRow,
}

/// Returns the file without a leading byte order mark (EF BB BF).
#[tactic(auto, unfolding(csv::specs::Reading::strip_bom))]
pub fn without_mark(raw: &[u8]) -> &[u8]
    ensures value { result.now ≡ strip_bom raw.now }
    ensures bound { length result.now ≤ length raw.now }
{
    match raw {
        [0xEF, 0xBB, 0xBF, text @ ..] => text,
        _ => raw,
    }
}

/// Returns the position after `byte`, and the effect of `byte`.
pub fn step(place: Place, byte: u8) -> (Place, Effect)
    ensures place { state_of result.0 ≡ (step default_config (state_of place) byte).0 }
    ensures effect { result.1 ≡ effect_of (step default_config (state_of place) byte).1 }
{
    match place {
        Place::Between | Place::AfterCr => match byte {
            b'\r' | b'\n' => (Place::Between, Effect::Skip),
            _ => start_field(byte),
        },
        Place::FieldStart => start_field(byte),
        Place::InField => in_field(byte),
        Place::InQuotes => match byte {
            b'"' => (Place::AfterQuote, Effect::Skip),
            _ => (Place::InQuotes, Effect::Keep),
        },
        Place::AfterQuote => match byte {
            b'"' => (Place::InQuotes, Effect::Keep),
            _ => in_field(byte),
        },
    }
}

fn start_field(byte: u8) -> (Place, Effect)
    ensures place { state_of result.0 ≡ (start_field default_config byte).0 }
    ensures effect { result.1 ≡ effect_of (start_field default_config byte).1 }
{
    if byte == b'"' {
        (Place::InQuotes, Effect::Skip)
    } else {
        in_field(byte)
    }
}

fn in_field(byte: u8) -> (Place, Effect)
    ensures place { state_of result.0 ≡ (in_field default_config byte).0 }
    ensures effect { result.1 ≡ effect_of (in_field default_config byte).1 }
{
    match byte {
        b',' => (Place::FieldStart, Effect::EndField),
        b'\r' => (Place::AfterCr, Effect::EndRow),
        b'\n' => (Place::Between, Effect::EndRow),
        _ => (Place::InField, Effect::Keep),
    }
}

/// Returns `true` if the byte with this effect ends a row.
pub fn is_row_end(effect: Effect) -> bool
    ensures { result ≡ is_row_end effect }
{
    match effect {
        Effect::Skip => false,
        Effect::Keep => false,
        Effect::EndField => false,
        Effect::EndRow => true,
    }
}

/// Returns `true` if the end of the file ends a row at `place`.
pub fn is_in_row(place: Place) -> bool
    ensures { result ≡ ends_at_end (state_of place) }
{
    match place {
        Place::Between => false,
        Place::AfterCr => false,
        Place::FieldStart => true,
        Place::InField => true,
        Place::InQuotes => true,
        Place::AfterQuote => true,
    }
}
