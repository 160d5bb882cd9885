//! The cards of a feed, and the lines that are printed about them.
ghost use Rattle.std.specs.Prelude.{◌≡◌, ◌<◌, ◌^◌, ◌++◌, IfOk, IfSome, OnOk, map, option_map};
ghost use Rattle.std.specs.Prelude.{string_bytes};
ghost use Rattle.text_io.specs.Numbers.{status_word};
ghost use Rattle.wire.specs.Sending.{word_text};
ghost use Rattle.hex.specs.Hex.{encode_upper};
ghost use Rattle.feeding.specs.Cards.{all_of, applied_line, card_line, card_of};
ghost use Rattle.feeding.specs.Cards.{end_line, gives, next_word};
ghost use Rattle.feeding.specs.Views.{card_view};

use itoa::Buffer;
use std::alloc::{AllocError, Global};
use text_io::{number_within, status_word, words_of};

/// The largest serial number.
pub(crate) const MOST_SERIAL: u64 = 999_999_999_999_999_999;

/// A simulated card: its serial number, its status words in order, and how many it has returned.
#[derive(Drop)]
pub(crate) struct Card {
    pub(crate) serial: u64,
    words: Vec<u16>,
    given: usize,
}

impl Card {
    /// Creates a card that returns the status words `words`.
    pub(crate) fn new(serial: u64, words: Vec<u16>) -> Card
        ensures { card_view result ≡ record { serial = serial; words = words.items; given = 0 } }
    {
        Card {
            serial,
            words,
            given: 0,
        }
    }

    /// Returns the next status word of the card: 9000 once all its status words are used.
    pub(crate) fn give(&mut self) -> u16
        ensures word { result ≡ next_word (card_view self.old) }
        ensures given { card_view self.new ≡ gives (card_view self.old) }
    {
        if self.given < self.words.len() {
            let word = self.words[self.given];
            self.given += 1;
            word
        } else {
            0x9000
        }
    }
}

/// Parses the card of a line. Returns `None` if the line is malformed.
///
/// # Errors
///
/// Fails only if an allocation fails.
#[tactic(auto, using(crate::proofs::Words::card_read))]
pub(crate) fn card_of(alloc: Global, line: &[u8]) -> Result<Option<Card>, AllocError>
    ensures value { IfOk result (λ card. option_map card_view card ≡ card_of line.now) }
    ensures serial { IfOk result (λ card. IfSome card (λ c. c.serial < 10 ^ 18)) }
{
    let words = words_of(alloc, line)?;
    let Some((first, rest)) = words.split_first() else {
        return Ok(None);
    };
    let Some(serial) = number_within(first, 0, MOST_SERIAL) else {
        return Ok(None);
    };
    match status_words(alloc, rest)? {
        Some(words) => Ok(Some(Card::new(serial, words))),
        None => Ok(None),
    }
}

// Parses the status words in `texts`. Returns `None` if one of them is malformed.
#[tactic(auto, using(crate::proofs::Words::words_none, crate::proofs::Words::words_more, crate::proofs::Words::words_bad, crate::proofs::Words::words_all))]
fn status_words(alloc: Global, texts: &[&[u8]]) -> Result<Option<Vec<u16>>, AllocError>
    ensures { IfOk result (λ words. option_map (λ ws. ws.items) words
        ≡ all_of (map (λ t. status_word t.now) texts.now)) }
{
    let mut words = Vec::new(alloc);
    for text in texts {
        let Some(word) = status_word(text) else {
            return Ok(None);
        };
        words.push(word)?;
    }
    Ok(Some(words))
}

/// Adds the line of a command that the card received, with the status word that it returned.
pub(crate) fn push_applied(
    alloc: Global,
    text: &mut Vec<u8>,
    serial: u64,
    command: &[u8],
    sw: u16,
) -> Result<(), AllocError>
    ensures { OnOk result
        (text.new.items ≡ text.old.items ++ applied_line serial command.now sw) }
{
    let command = hex::encode_upper(alloc, command)?;
    let word = word_text(alloc, sw)?;
    let mut content = Vec::from_slice(alloc, command.as_bytes())?;
    content.push(b' ')?;
    content.extend_from_slice(word.as_bytes())?;
    push_line(text, serial, content.as_slice())
}

// Returns four upper-case hexadecimal digits.
fn word_text(alloc: Global, sw: u16) -> Result<String, AllocError>
    ensures { IfOk result (λ text. string_bytes text ≡ word_text sw) }
{
    hex::encode_upper(alloc, sw.to_be_bytes())
}

/// Adds the line of an ejected card.
pub(crate) fn push_end(text: &mut Vec<u8>, serial: u64, good: bool) -> Result<(), AllocError>
    ensures { OnOk result (text.new.items ≡ text.old.items ++ end_line serial good) }
{
    let content = if good {
        b"good".as_slice()
    } else {
        b"rejected".as_slice()
    };
    push_line(text, serial, content)
}

fn push_line(text: &mut Vec<u8>, serial: u64, content: &[u8]) -> Result<(), AllocError>
    ensures { OnOk result (text.new.items ≡ text.old.items ++ card_line serial content.now) }
{
    let mut number = Buffer::new();
    text.extend_from_slice(number.format(serial).as_bytes())?;
    text.push(b' ')?;
    text.extend_from_slice(content)?;
    text.push(b'\n')?;
    Ok(())
}
