//! Converts a change to the rows that are written for it.
ghost use Rattle.std.specs.Prelude.{◌≡◌, ◌<◌, ◌^◌, false, IfOk, IfSome, find, option_map};
ghost use Rattle.sqlite.specs.Held.{state};
ghost use Rattle.job_facts.specs.Sound.{IsSoundChange};
ghost use Rattle.job_facts.specs.declared.change.Change.TheVariants.{Discards};
ghost use Rattle.image_laws.specs.Image.{stored_batches};
ghost use Rattle.image_laws.specs.WritingOf.{IsOfWord, IsPlaceOf, IsPlaceOfSession, IsWritingOf};
ghost use Rattle.table_rows.specs.Keys.{is_batch_named};
ghost use Rattle.table_rows.specs.declared.writing.Writing.TheVariants.{AddsBatch};
ghost use Rattle.row_reads.specs.Reads.{Looks};
ghost use Rattle.store_reads.specs.Heads.{counters_at, counters_of, place_at};
ghost use Rattle.store_reads.specs.Known.{Knows};
ghost use Rattle.store_reads.specs.ReadsContents.{FindsContents, GivesContents};

use crate::known::{BatchCounters, Known};
use crate::sessions::session;
use job_facts::{Change, NewBatch, NewWord, SessionState};
use row_reads::{BatchHead, RecordAt, batch_head, record_named};
use sqlite::{Alter, Connection, Error};
use store_data::Name;
use table_rows::{RecordPlace, Writing};

// ---- records

fn place_at(counters: &BatchCounters, card: &RecordAt) -> RecordPlace
    ensures { result ≡ place_at counters.now card.now }
{
    RecordPlace {
        batch: counters.batch,
        place: card.place,
        spoiled: card.spoiled,
        remakes: card.remakes,
        totals: counters.totals,
    }
}

// Returns the counters in `head`, with the id of the batch.
fn counters_at(head: Option<BatchHead>) -> Option<BatchCounters>
    ensures { result ≡ option_map counters_at head }
{
    head.map(|head| BatchCounters {
        batch: head.id,
        totals: head.totals,
    })
}

// Returns the counters of the batch `batch`. Its row is read only if they aren't cached.
fn counters_of<S: Alter>(
    conn: &mut Connection<S>,
    known: &Known,
    batch: &Name,
) -> Result<Option<BatchCounters>, Error>
    requires idle { conn.old.in_transaction ≡ false }
    requires knows { Knows (state S.Store conn.old) known.now }
    ensures value { GivesContents (state S.Store conn.old) (state S.Store conn.new) result
        (λ c found. found ≡ option_map counters_of
        (find (is_batch_named batch.now) (stored_batches c.facts))) }
    ensures ranged { IfOk result (λ found. IfSome found (λ counters. counters.batch < 2 ^ 63)) }
    ensures looks { Looks (state S.Store conn.old) (state S.Store conn.new) }
{
    row_laws::batches_by_name();
    row_laws::records_by_name();
    if let Some(counters) = known.counters(batch) {
        return Ok(Some(counters));
    }
    let head = batch_head(conn, batch)?;
    Ok(counters_at(head))
}

// Returns the row of the record `rec` before a change, with the counters of its batch. The row of
// the record is read only if its state isn't cached.
fn place_of<S: Alter>(
    conn: &mut Connection<S>,
    known: &Known,
    batch: &Name,
    rec: &Name,
) -> Result<RecordPlace, Error>
    requires idle { conn.old.in_transaction ≡ false }
    requires knows { Knows (state S.Store conn.old) known.now }
    ensures value { GivesContents (state S.Store conn.old) (state S.Store conn.new) result
        (λ c place. IsPlaceOf c.facts batch.now rec.now place) }
    ensures looks { Looks (state S.Store conn.old) (state S.Store conn.new) }
{
    row_laws::batches_by_name();
    row_laws::records_by_name();
    let Some(counters) = counters_of(conn, known, batch)? else {
        return Err(Error::InvalidQuery);
    };
    if let Some(card) = known.stands(counters.batch, rec) {
        return Ok(place_at(&counters, card));
    }
    let Some(card) = record_named(conn, counters.batch, rec)? else {
        return Err(Error::InvalidQuery);
    };
    Ok(place_at(&counters, &card))
}

// Returns the row of the record of the session `number` before a change, with the counters of its
// batch.
fn place_of_session<S: Alter>(
    conn: &mut Connection<S>,
    known: &Known,
    number: u64,
) -> Result<RecordPlace, Error>
    requires idle { conn.old.in_transaction ≡ false }
    requires knows { Knows (state S.Store conn.old) known.now }
    ensures value { GivesContents (state S.Store conn.old) (state S.Store conn.new) result
        (λ c place. IsPlaceOfSession c.facts number place) }
    ensures looks { Looks (state S.Store conn.old) (state S.Store conn.new) }
{
    let Some(row) = session(conn, known, number)? else {
        return Err(Error::InvalidQuery);
    };
    place_of(conn, known, &row.batch, &row.rec)
}

// ---- one change

// Returns the `Writing` for a new batch.
fn batch_writing<'a>(batch: &NewBatch<'a>) -> Writing<'a>
    ensures { result ≡ AddsBatch batch.now }
{
    // Copying the whole value would need a proof by hand, because it has a lifetime.
    let batch = NewBatch {
        number: batch.number,
        name: batch.name,
        product: batch.product,
        records: batch.records,
        raw: batch.raw,
    };
    Writing::AddsBatch { batch }
}

// Returns the `Writing` for discarding the blank `blank` of the lot `lot`.
fn discard_writing<'a, S: Alter>(
    conn: &mut Connection<S>,
    blank: u64,
    lot: &Name,
) -> Result<Writing<'a>, Error>
    requires { conn.old.in_transaction ≡ false }
    ensures { FindsContents (state S.Store conn.old) (state S.Store conn.new) result
        (λ c w. IsWritingOf c.facts (Discards blank lot.now) w) }
{
    row_laws::lots_by_name();
    let Some(row) = row_reads::lot(conn, lot)? else {
        return Err(Error::InvalidQuery);
    };
    Ok(Writing::Discards {
        blank,
        lot: *lot,
        discarded: row.discarded,
    })
}

// Returns the `Writing` for a status word, after which its session is in the state `stands`. The
// session belongs to the record `rec` of the batch `batch`.
fn word_writing<'a, S: Alter>(
    conn: &mut Connection<S>,
    known: &Known,
    batch: &Name,
    rec: &Name,
    word: NewWord,
    stands: SessionState,
) -> Result<Writing<'a>, Error>
    requires idle { conn.old.in_transaction ≡ false }
    requires knows { Knows (state S.Store conn.old) known.now }
    ensures value { GivesContents (state S.Store conn.old) (state S.Store conn.new) result
        (λ c w. IsOfWord c.facts batch.now rec.now word stands w) }
    ensures looks { Looks (state S.Store conn.old) (state S.Store conn.new) }
{
    match stands {
        SessionState::Running => Ok(Writing::AddsWord { word }),
        SessionState::Good | SessionState::Spoiled => {
            let place = place_of(conn, known, batch, rec)?;
            Ok(Writing::AddsLastWord {
                word,
                stands,
                place,
            })
        }
    }
}

/// Returns the `Writing` for `change`, with the earlier values of the rows that it updates. If it
/// needs no values from the database, nothing is read.
pub fn writing_of<'a, S: Alter>(
    conn: &mut Connection<S>,
    known: &Known,
    change: &Change<'a>,
) -> Result<Writing<'a>, Error>
    requires idle { conn.old.in_transaction ≡ false }
    requires knows { Knows (state S.Store conn.old) known.now }
    ensures value { GivesContents (state S.Store conn.old) (state S.Store conn.new) result
        (λ c w. IsSoundChange c.facts change.now → IsWritingOf c.facts change.now w) }
    ensures looks { Looks (state S.Store conn.old) (state S.Store conn.new) }
{
    match *change {
        Change::Nothing => Ok(Writing::Nothing),
        Change::AddsProduct { product } => Ok(Writing::AddsProduct { product }),
        Change::AddsLot { lot } => Ok(Writing::AddsLot { lot }),
        Change::AddsBatch { ref batch } => Ok(batch_writing(batch)),
        Change::Opens {
            session,
            batch,
            rec,
        } => {
            let place = place_of(conn, known, &batch, &rec)?;
            Ok(Writing::Opens { session, place })
        }
        Change::AddsWord {
            word,
            batch,
            rec,
            stands,
        } => word_writing(conn, known, &batch, &rec, word, stands),
        Change::Ends { session } => {
            let place = place_of_session(conn, known, session)?;
            Ok(Writing::Ends { session, place })
        }
        Change::Discards { blank, lot } => discard_writing(conn, blank, &lot),
        Change::Remakes { batch, rec } => {
            let place = place_of(conn, known, &batch, &rec)?;
            Ok(Writing::Remakes { place })
        }
        Change::Withdraws { batch, rec, was } => {
            let place = place_of(conn, known, &batch, &rec)?;
            Ok(Writing::Withdraws { was, place })
        }
        Change::Closes { batch } => Ok(Writing::Closes { batch }),
    }
}
