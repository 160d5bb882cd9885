//! A card: a session of a record, with its last status word.
ghost use Rattle.std.specs.Prelude.{◌≡◌};
ghost use Rattle.audit_order.specs.Order.{AreReady};
ghost use Rattle.book_lines.specs.Cards.{card_of, last_word};

use audit_order::range_of;
use std::marker::Model;
use table_rows::{StoredRecord, StoredSession, Tables};

/// A card: a session of a record, with its last status word.
#[derive(Drop)]
pub struct Card<'a> {
    /// The record.
    pub rec: &'a StoredRecord,
    /// The session.
    pub session: &'a StoredSession,
    /// The last status word of the session, if it has one.
    pub last: Option<u16>,
}

impl<'a> Model for Card<'a> {
    ghost use Rattle.book_lines.specs.Cards.{Card as CardValue};

    ghost Value = { CardValue };

    ghost view = { λ c. record { rec = c.rec.now; session = c.session.now; last = c.last } };
}

/// Returns the card of `session`, which is a session of the record `rec`.
pub(crate) fn card_of<'a>(
    tables: &Tables,
    rec: &'a StoredRecord,
    session: &'a StoredSession,
) -> Card<'a>
    requires { AreReady tables.now }
    ensures { result ≡ card_of tables.now rec.now session.now }
{
    let last = last_word(tables, session);
    Card { rec, session, last }
}

// Returns the last status word of `session`, if it has one.
fn last_word(tables: &Tables, session: &StoredSession) -> Option<u16>
    requires { AreReady tables.now }
    ensures { result ≡ last_word tables.now session.now }
{
    match range_of(&tables.words, session.id).last() {
        None => None,
        Some(word) => Some(word.sw),
    }
}
