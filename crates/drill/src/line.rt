//! Parses the lines of a script.
ghost use Rattle.std.specs.Prelude.{◌≡◌, IfSome, option_map};
ghost use Rattle.drill.specs.ScriptLines.{IsLine, line_by, line_of, shown_line};

use crate::delivery::{Delivery, delivery_by};
use crate::script::{Step, step_by};
use crate::turn::{Turn, turn_by};
use text_io::word_of;

/// A line of a script.
#[derive(Clone, Copy)]
pub(crate) enum Line<'a> {
    /// A machine or a reply moves.
    Move(Turn),
    /// A packet is delivered to the server.
    Deliver(Delivery),
    /// A request is sent to the server.
    Ask(Step<'a>),
}

/// Parses a line. Returns `None` if it is malformed.
pub(crate) fn line_of(line: &[u8]) -> Option<Line<'_>>
    ensures value { option_map shown_line result ≡ line_of line.now }
    ensures ranged { IfSome result IsLine }
{
    let (word, words) = word_of(line)?;
    line_by(word, words)
}

// Parses a line by its first word and the rest.
fn line_by<'a>(word: &[u8], words: &'a [u8]) -> Option<Line<'a>>
    ensures value { option_map shown_line result ≡ line_by word.now words.now }
    ensures ranged { IfSome result IsLine }
{
    if let Some(turn) = turn_by(word, words) {
        return Some(Line::Move(turn));
    }
    if let Some(delivery) = delivery_by(word, words) {
        return Some(Line::Deliver(delivery));
    }
    let step = step_by(word, words)?;
    Some(Line::Ask(step))
}
