//! A charged blank with its session.
ghost use Rattle.std.specs.Prelude.{◌≡◌};
ghost use Rattle.book_lines.specs.Blanks.{is_in_state, stands_on};

use crate::blank_state::{BlankState, stands_by};
use std::marker::Model;
use table_rows::{StoredBlank, StoredSession};

/// A charged blank with its session.
#[derive(Drop)]
pub struct Charge<'a> {
    /// The blank.
    pub blank: &'a StoredBlank,
    /// The session that charged the blank, or `None` if the blank is discarded.
    pub on: Option<&'a StoredSession>,
}

impl<'a> Model for Charge<'a> {
    ghost use Rattle.std.specs.Prelude.{option_map};
    ghost use Rattle.book_lines.specs.Blanks.{Charge as ChargeValue};

    ghost Value = { ChargeValue };

    ghost view = { λ c. record { blank = c.blank.now; on = option_map (λ s. s.now) c.on } };
}

impl<'a> Charge<'a> {
    /// Returns the state of the blank.
    pub fn stands(&self) -> BlankState
        ensures { result ≡ stands_on self.now.on }
    {
        match self.on {
            None => BlankState::Discarded,
            Some(session) => stands_by(session.state),
        }
    }

    /// Returns `true` if the blank is in the state `state`.
    pub fn is_in_state(&self, state: BlankState) -> bool
        ensures { result ≡ is_in_state state self.now }
    {
        state == self.stands()
    }
}
