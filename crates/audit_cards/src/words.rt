//! Checks the status words and their places in their sessions.
ghost use Rattle.std.specs.Prelude.{◌≡◌, ◌↔◌, ◌++◌, List, IfSome, IsTrue, None, flat_map};
ghost use Rattle.table_rows.specs.Tables.{StoredWord as WordValue};
ghost use Rattle.audit_laws.specs.Audited.{placed_words};
ghost use Rattle.audit_cards.specs.Cards.{word_at, words_placed};
ghost use Rattle.audit_order.specs.Order.{AreReady};

use crate::sessions::words_of;
use table_rows::{StoredSession, StoredWord, Tables};

// Returns `true` if `word` is at `place` of `session`, and has the status word of `own`.
fn is_word(word: &StoredWord, session: &StoredSession, place: usize, own: &StoredWord) -> bool
    ensures { IsTrue result ↔ (word.now ≡ word_at session.now.id place own.now) }
{
    word.session == session.id && word.place == place as u64 && word.sw == own.sw
}

// Returns `true` if `words` are the status words `own` of the session, with the places 0, 1, ..
fn are_placed(words: &[StoredWord], session: &StoredSession, own: &[StoredWord]) -> bool
    ensures { IsTrue result ↔ (words.now ≡ words_placed session.now.id own.now) }
{
    if words.len() != own.len() {
        return false;
    }
    for place in 0..words.len() {
        if !is_word(&words[place], session, place, &own[place]) {
            return false;
        }
    }
    true
}

// Returns the rows after the status words of `session`, or `None` if `words` doesn't start with
// them.
fn behind_words<'a>(
    tables: &Tables,
    words: &'a [StoredWord],
    session: &StoredSession,
) -> Option<&'a [StoredWord]>
    requires { AreReady tables.now }
    ensures some { IfSome result
        (λ rest. words.now ≡ placed_words tables.now session.now ++ rest.now) }
    ensures none { result ≡ None → (rest : List WordValue)
        → words.now ≡ placed_words tables.now session.now ++ rest → ⊥ }
{
    let own = words_of(tables, session);
    if words.len() < own.len() {
        return None;
    }
    let (front, rest) = words.split_at(own.len());
    if are_placed(front, session, own) {
        Some(rest)
    } else {
        None
    }
}

// Returns `true` if `words` are exactly the status words of `sessions`, with the places 0, 1, .. in
// each session.
fn are_words_of(tables: &Tables, words: &[StoredWord], sessions: &[StoredSession]) -> bool
    requires { AreReady tables.now }
    ensures { IsTrue result ↔ (words.now ≡ flat_map (placed_words tables.now) sessions.now) }
{
    let mut rest = words;
    for session in sessions {
        match behind_words(tables, rest, session) {
            None => return false,
            Some(more) => rest = more,
        }
    }
    rest.is_empty()
}

/// Returns `true` if the rows of `word` are exactly the status words of the sessions, with the
/// places 0, 1, .. in each session.
pub fn has_words(tables: &Tables) -> bool
    requires { AreReady tables.now }
    ensures { IsTrue result
        ↔ (tables.now.words ≡ flat_map (placed_words tables.now) tables.now.sessions) }
{
    are_words_of(tables, &tables.words, &tables.sessions)
}
