//! The flaws of malformed lines.
ghost use Rattle.std.specs.Prelude.{◌≡◌, ◌↔◌, ◌==◌, IfOk, IsSome, None, length, map, not};
ghost use Rattle.std.specs.List.{list_any};
ghost use Rattle.text_io.specs.Numbers.{is_word};
ghost use Rattle.feeding.specs.Cards.{card_of};
ghost use Rattle.feeding.specs.Flaws.{flaw_by, flaw_name, flaw_of};

use crate::card::MOST_SERIAL;
use std::alloc::{AllocError, Global};
use text_io::{number_within, status_word, words_of};

/// A flaw of a line in the list of cards.
#[derive(Clone, Copy, Debug, PartialEq, Eq)]
pub enum Flaw {
    /// The line is empty.
    Empty,
    /// The line ends with CR.
    EndsInCr,
    /// A word is empty: the line has two spaces in a row, or a space at its start or end.
    Space,
    /// The first word isn't a serial number: it isn't decimal, has a leading zero, or is too large.
    Serial,
    /// A word after the serial number isn't four hexadecimal digits.
    Word,
}

impl Flaw {
    /// Returns the word for this flaw in an event line.
    pub fn name(self) -> &'static str
        ensures { result.now ≡ flaw_name self }
    {
        match self {
            Flaw::Empty => "empty",
            Flaw::EndsInCr => "ends-in-cr",
            Flaw::Space => "space",
            Flaw::Serial => "serial",
            Flaw::Word => "word",
        }
    }
}

/// Returns the first flaw of `line`, in the order of the variants of `Flaw`. `line` has no LF. A
/// line has a flaw if and only if `card_of` doesn't find a card in it.
///
/// # Errors
///
/// Fails only if an allocation fails.
#[tactic(auto, using(crate::proofs::Flaws::flaw_law))]
pub fn flaw_of(alloc: Global, line: &[u8]) -> Result<Option<Flaw>, AllocError>
    ensures value { IfOk result (λ flaw. flaw ≡ flaw_of line.now) }
    ensures law { IsSome (flaw_of line.now) ↔ (card_of line.now ≡ None) }
{
    if line.is_empty() {
        return Ok(Some(Flaw::Empty));
    }
    if line.ends_with(b"\r") {
        return Ok(Some(Flaw::EndsInCr));
    }
    let words = words_of(alloc, line)?;
    if has_empty(words.as_slice()) {
        return Ok(Some(Flaw::Space));
    }
    Ok(flaw_by(words.as_slice()))
}

// Returns the flaw of a line whose words aren't empty.
fn flaw_by(words: &[&[u8]]) -> Option<Flaw>
    ensures { result ≡ flaw_by (map (λ w. w.now) words.now) }
{
    let Some((serial, rest)) = words.split_first() else {
        return Some(Flaw::Serial);
    };
    if number_within(serial, 0, MOST_SERIAL).is_none() {
        return Some(Flaw::Serial);
    }
    has_other(rest).then_some(Flaw::Word)
}

// Returns `true` if one of the words is empty.
fn has_empty(words: &[&[u8]]) -> bool
    ensures { result ≡ list_any (λ w. length w.now == 0) words.now }
{
    words.iter().any(|word| word.is_empty())
}

// Returns `true` if one of the words isn't four hexadecimal digits.
fn has_other(words: &[&[u8]]) -> bool
    ensures { result ≡ list_any (λ w. not (is_word w.now)) words.now }
{
    words.iter().any(|word| status_word(word).is_none())
}
