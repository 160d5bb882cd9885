//! Parses the lines of a drill that move a machine or a reply.
ghost use Rattle.std.specs.Prelude.{◌≡◌, ◌≤◌, IfSome};
ghost use Rattle.drill.specs.Turns.{IsTurn, card_of, count_of, insert_of, machine_of};
ghost use Rattle.drill.specs.Turns.{power_of, turn_by};

use store_data::Name;
use text_io::{number_within, status_word, word_of};

/// The largest serial number, and the largest number of a packet or reply: 18 digits.
const MOST: u64 = 999_999_999_999_999_999;

/// The largest boot number.
const MOST_BOOT: u64 = 9_999_999_999;

/// An event on the shop floor in which the server has no part.
#[derive(Clone, Copy)]
pub enum Turn {
    /// A machine loses its state and starts.
    Power {
        machine: Name,
        /// The boot number, 1 to 9,999,999,999.
        boot: u64,
    },
    /// A card is inserted.
    Insert {
        machine: Name,
        batch: Name,
        /// The serial number of the card, of at most 18 digits.
        blank: u64,
    },
    /// A machine sends its pending request as a packet.
    Send {
        machine: Name,
    },
    /// The card in a machine returns a status word.
    Card {
        machine: Name,
        sw: u16,
    },
    /// A reply reaches the machine that sent the request. Replies are numbered from 1.
    Back {
        reply: u64,
    },
}

/// Parses an event by the first word of its line and the rest: `power M BOOT`, `insert M BATCH
/// SERIAL`, `send M`, `card M SW` or `back J`, with single spaces between the words and without
/// leading zeros (this project's profile). Returns `None` for any other line.
pub fn turn_by(word: &[u8], words: &[u8]) -> Option<Turn>
    ensures value { result ≡ turn_by word.now words.now }
    ensures ranged { IfSome result IsTurn }
{
    if word == b"power".as_slice() {
        power_of(words)
    } else if word == b"insert".as_slice() {
        insert_of(words)
    } else if word == b"send".as_slice() {
        let machine = machine_of(words)?;
        Some(Turn::Send { machine })
    } else if word == b"card".as_slice() {
        card_of(words)
    } else if word == b"back".as_slice() {
        let reply = count_of(words)?;
        Some(Turn::Back { reply })
    } else {
        None
    }
}

fn power_of(words: &[u8]) -> Option<Turn>
    ensures value { result ≡ power_of words.now }
    ensures ranged { IfSome result IsTurn }
{
    let (machine, boot) = word_of(words)?;
    let machine = machine_of(machine)?;
    let boot = number_within(boot, 1, MOST_BOOT)?;
    Some(Turn::Power { machine, boot })
}

fn insert_of(words: &[u8]) -> Option<Turn>
    ensures value { result ≡ insert_of words.now }
    ensures ranged { IfSome result IsTurn }
{
    let (machine, words) = word_of(words)?;
    let (batch, blank) = word_of(words)?;
    let machine = machine_of(machine)?;
    let batch = Name::new(batch)?;
    let blank = number_within(blank, 0, MOST)?;
    Some(Turn::Insert {
        machine,
        batch,
        blank,
    })
}

fn card_of(words: &[u8]) -> Option<Turn>
    ensures value { result ≡ card_of words.now }
    ensures ranged { IfSome result IsTurn }
{
    let (machine, sw) = word_of(words)?;
    let machine = machine_of(machine)?;
    let sw = status_word(sw)?;
    Some(Turn::Card { machine, sw })
}

/// Parses the number of a packet or reply, from 1.
pub fn count_of(text: &[u8]) -> Option<u64>
    ensures value { result ≡ count_of text.now }
    ensures least { IfSome result (λ k. 1 ≤ k) }
{
    number_within(text, 1, MOST)
}

// Parses the name of a machine, which must not be `office`.
fn machine_of(text: &[u8]) -> Option<Name>
    ensures { result ≡ machine_of text.now }
{
    if text == b"office".as_slice() {
        return None;
    }
    Name::new(text)
}
