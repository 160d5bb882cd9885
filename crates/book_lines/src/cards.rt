//! The output of `shopbook cards`: the sessions of each record of a batch.
ghost use Rattle.std.specs.Prelude.{◌≡◌, ◌++◌, ℕ, All, IfOk, OnOk, filter, find, flat_map};
ghost use Rattle.std.specs.Prelude.{map, option_map};
ghost use Rattle.table_rows.specs.Keys.{is_batch_named};
ghost use Rattle.table_rows.specs.Tables.{StoredRecord as RecordValue};
ghost use Rattle.table_rows.specs.Tables.{StoredSession as SessionValue};
ghost use Rattle.audit_laws.specs.Audited.{is_session_of};
ghost use Rattle.audit_order.specs.Order.{AreReady};
ghost use Rattle.book_lines.specs.Cards.{batch_cards, card_line, card_of, cards_of, cards_text};
ghost use Rattle.book_lines.specs.Cards.{record_cards};
ghost use Rattle.book_lines.specs.Keyed.{AreKeyed};

use crate::blank_state::stands_by;
use crate::card::{Card, card_of};
use crate::cell::{Cell, digits, number, status, word};
use crate::form::Form;
use crate::keyed::{Keyed, by_place};
use crate::line::push_line;
use crate::printed::{Printed, print_all};
use audit_order::range_of;
use std::alloc::{AllocError, Global};
use store_data::Name;
use table_rows::{StoredBatch, StoredRecord, StoredSession, Tables};

/// Returns the output of `shopbook cards` for the batch `batch`, or `None` if the batch doesn't
/// exist. It has a line for each session, by its records in file order, with the number of its
/// status words and the last of them.
///
/// Takes O(n log n) time for n sessions, records of the batch and status words.
///
/// # Errors
///
/// Returns `AllocError` if an allocation fails.
pub fn cards_of(
    alloc: Global,
    form: Form,
    tables: &Tables,
    batch: &Name,
) -> Result<Option<Vec<u8>>, AllocError>
    requires { AreReady tables.now }
    ensures { IfOk result (λ found. option_map (λ text. text.items) found
        ≡ cards_of form tables.now batch.now) }
{
    match batch_named(&tables.batches, batch) {
        None => Ok(None),
        Some(row) => {
            let text = cards_text(alloc, form, tables, row)?;
            Ok(Some(text))
        }
    }
}

/// Returns the batch with the name `batch`, if it is in `batches`.
pub fn batch_named<'a>(batches: &'a [StoredBatch], batch: &Name) -> Option<&'a StoredBatch>
    ensures { option_map (λ b. b.now) result ≡ find (is_batch_named batch.now) batches.now }
{
    batches
        .iter()
        .find(|row| row.name.as_slice() == batch.bytes())
}

fn cards_text(
    alloc: Global,
    form: Form,
    tables: &Tables,
    batch: &StoredBatch,
) -> Result<Vec<u8>, AllocError>
    requires { AreReady tables.now }
    ensures { IfOk result (λ text. text.items ≡ cards_text form tables.now batch.now) }
{
    let cards = batch_cards(alloc, tables, batch)?;
    let mut text = Vec::new(alloc);
    print_all(&mut text, form, tables, &cards)?;
    Ok(text)
}

// ---- cards

/// Returns the cards of the batch `batch`, by its records in file order. The cards of one record
/// are in the order in which their sessions were opened.
///
/// Takes O(n log n) time for n sessions, records of the batch and status words.
///
/// # Errors
///
/// Returns `AllocError` if an allocation fails.
pub fn batch_cards<'a>(
    alloc: Global,
    tables: &'a Tables,
    batch: &StoredBatch,
) -> Result<Vec<Card<'a>>, AllocError>
    requires { AreReady tables.now }
    ensures { IfOk result (λ cards. cards.items ≡ batch_cards tables.now batch.now) }
{
    let by_place = by_place(alloc, &tables.sessions, batch.id)?;
    let records = range_of(&tables.records, batch.id);
    let mut cards = Vec::new(alloc);
    add_records(&mut cards, tables, batch.id, records, &by_place)?;
    Ok(cards)
}

// Adds the cards of `records`, which all belong to the batch with the id `id`. `by_place` contains
// the sessions of this batch, keyed by the positions of their records.
fn add_records<'a>(
    cards: &mut Vec<Card<'a>>,
    tables: &'a Tables,
    id: u64,
    records: &'a [StoredRecord],
    by_place: &[Keyed<'a, StoredSession>],
) -> Result<(), AllocError>
    requires ready { AreReady tables.now }
    requires records { All (λ (r : RecordValue). r.batch ≡ id) records.now }
    requires keyed { AreKeyed (λ (s : SessionValue). s.place)
        (filter (is_session_of id) tables.now.sessions) by_place.now }
    ensures { OnOk result (cards.new.items
        ≡ cards.old.items ++ flat_map (record_cards tables.now) records.now) }
{
    for rec in records {
        add_record(cards, tables, rec, by_place)?;
    }
    Ok(())
}

// Adds the cards of the record `rec`.
fn add_record<'a>(
    cards: &mut Vec<Card<'a>>,
    tables: &'a Tables,
    rec: &'a StoredRecord,
    by_place: &[Keyed<'a, StoredSession>],
) -> Result<(), AllocError>
    requires ready { AreReady tables.now }
    requires keyed { AreKeyed (λ (s : SessionValue). s.place)
        (filter (is_session_of rec.now.batch) tables.now.sessions) by_place.now }
    ensures { OnOk result
        (cards.new.items ≡ cards.old.items ++ record_cards tables.now rec.now) }
{
    add_sessions(cards, tables, rec, range_of(by_place, rec.place))
}

// Adds the cards of `sessions`, which all belong to the record `rec`.
fn add_sessions<'a>(
    cards: &mut Vec<Card<'a>>,
    tables: &'a Tables,
    rec: &'a StoredRecord,
    sessions: &[Keyed<'a, StoredSession>],
) -> Result<(), AllocError>
    requires { AreReady tables.now }
    ensures { OnOk result (cards.new.items ≡ cards.old.items
        ++ map (λ (k : ℕ × SessionValue). card_of tables.now rec.now k.1) sessions.now) }
{
    for session in sessions {
        cards.push(card_of(tables, rec, session.row))?;
    }
    Ok(())
}

// ---- lines

impl Printed for Card<'_> {
    ghost use Rattle.std.specs.Prelude.{⊤};
    ghost use Rattle.book_lines.specs.Cards.{card_line};

    ghost fits = { λ t c. ⊤ };

    ghost line = { λ t c. card_line c };

    fn print(&self, text: &mut Vec<u8>, form: Form, _tables: &Tables) -> Result<(), AllocError> {
        push_line(text, form, "card", &card_cells(self))
    }
}

/// Returns the cells of the line of `card`.
pub fn card_cells<'a>(card: &Card<'a>) -> [Cell<'a>; 7]
    ensures { result ≡ (card_line card.now).cells }
{
    let rec = card.rec;
    let session = card.session;
    [
        word("record", &rec.name),
        number("session", session.id),
        word("machine", &session.machine),
        digits("serial", session.serial),
        word("state", stands_by(session.state).word().as_bytes()),
        number("words", session.words),
        status("last", card.last),
    ]
}
