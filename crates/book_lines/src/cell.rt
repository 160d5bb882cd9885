//! A cell of a line: a key and a value.
ghost use Rattle.std.specs.Prelude.{◌≡◌, option_map};
ghost use Rattle.book_lines.specs.Lines.{Nothing, digits_cell, name_cell, number_cell};
ghost use Rattle.book_lines.specs.Lines.{optional_cell, optional_digits_cell, status_cell};
ghost use Rattle.book_lines.specs.Lines.{word_cell};

use crate::shown::Shown;
use std::marker::Model;

/// A cell of a line.
#[derive(Drop)]
pub struct Cell<'a> {
    /// The key, which is the name of the member in JSON.
    pub key: &'a str,
    /// The value.
    pub shown: Shown<'a>,
}

impl<'a> Model for Cell<'a> {
    ghost use Rattle.book_lines.specs.Lines.{Cell as CellValue};
    ghost use Rattle.book_lines.specs.Views.{shown_of};

    ghost Value = { CellValue };

    ghost view = { λ c. record { key = c.key.now; shown = shown_of c.shown } };
}

/// Returns a cell with a number below 2^53.
pub(crate) fn number(key: &str, number: u64) -> Cell<'_>
    ensures { result ≡ number_cell key.now number }
{
    Cell {
        key,
        shown: Shown::Number(number),
    }
}

/// Returns a cell with a number that can be 2^53 or higher.
pub(crate) fn digits(key: &str, number: u64) -> Cell<'_>
    ensures { result ≡ digits_cell key.now number }
{
    Cell {
        key,
        shown: Shown::Digits(number),
    }
}

/// Returns a cell with a word of plain characters.
pub(crate) fn word<'a>(key: &'a str, word: &'a [u8]) -> Cell<'a>
    ensures { result ≡ word_cell key.now word.now }
{
    Cell {
        key,
        shown: Shown::Word(word),
    }
}

/// Returns a cell with a name, or an empty cell if `name` is `None`.
pub(crate) fn name<'a>(key: &'a str, name: Option<&'a [u8]>) -> Cell<'a>
    ensures { result ≡ name_cell key.now (option_map (λ n. n.now) name.entry) }
{
    match name {
        None => nothing(key),
        Some(name) => word(key, name),
    }
}

/// Returns a cell with a number below 2^53, or an empty cell if `number` is `None`.
pub(crate) fn optional(key: &str, number: Option<u64>) -> Cell<'_>
    ensures { result ≡ optional_cell key.now number }
{
    match number {
        None => nothing(key),
        Some(number) => Cell {
            key,
            shown: Shown::Number(number),
        },
    }
}

/// Returns a cell with a number that can be 2^53 or higher, or an empty cell if `number` is `None`.
pub(crate) fn optional_digits(key: &str, number: Option<u64>) -> Cell<'_>
    ensures { result ≡ optional_digits_cell key.now number }
{
    match number {
        None => nothing(key),
        Some(number) => digits(key, number),
    }
}

/// Returns a cell with the status word of a card, or an empty cell if `sw` is `None`.
pub(crate) fn status(key: &str, sw: Option<u16>) -> Cell<'_>
    ensures { result ≡ status_cell key.now sw }
{
    match sw {
        None => nothing(key),
        Some(sw) => Cell {
            key,
            shown: Shown::Status(sw),
        },
    }
}

// Returns an empty cell.
fn nothing(key: &str) -> Cell<'_>
    ensures { result ≡ record { key = key.now; shown = Nothing } }
{
    Cell {
        key,
        shown: Shown::Nothing,
    }
}
