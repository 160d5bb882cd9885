//! Writes sessions, their status words and blanks, in an open transaction. A crash before its
//! commit leaves no trace of them.
ghost use Rattle.std.specs.Prelude.{◌+◌, ◌<◌, ◌^◌};
ghost use Rattle.sql_rows.specs.Writes.{Writes};
ghost use Rattle.table_rows.specs.After.{rows_after, session_rows_after, word_rows_after};
ghost use Rattle.table_rows.specs.declared.writing.Writing.TheVariants as writing;
ghost use Rattle.change_writes.specs.Writable.{HasRoom};

use crate::counters::opened;
use crate::records::{write_record, write_spoiled, write_stop};
use job_facts::{NewSession, NewWord, RecordState, SessionState};
use row_writes::{add_blank, add_session, add_word, set_end, set_lot, set_session};
use sqlite::{Alter, Error, Transaction};
use store_data::Name;
use table_rows::RecordPlace;

/// Adds a session with its blank, and sets the record to running.
pub(crate) fn write_opened<S: Alter>(
    tx: &mut Transaction<'_, S>,
    session: &NewSession,
    place: &RecordPlace,
) -> Result<usize, Error>
    requires session { session.now.number < 2 ^ 63 }
    requires blank { session.now.blank < 2 ^ 63 }
    requires room { HasRoom place.now }
    ensures { Writes S.Store (session_rows_after session.now place.now)
        tx.old.conn tx.new.conn result }
{
    add_session(tx, session.number, place, &session.machine, session.blank)?;
    add_blank(tx, session.blank, &session.lot, false)?;
    let totals = opened(&place.totals);
    write_record(tx, &RecordPlace { totals, ..*place }, RecordState::Running)
}

/// Adds a status word, and sets its session to `stands`.
pub(crate) fn write_word<S: Alter>(
    tx: &mut Transaction<'_, S>,
    word: &NewWord,
    stands: SessionState,
) -> Result<usize, Error>
    requires { word.now.session < 2 ^ 63 }
    ensures { Writes S.Store (word_rows_after word.now stands) tx.old.conn tx.new.conn result }
{
    add_word(tx, word.session, word.index, word.sw)?;
    let words = u64::from(word.index) + 1;
    set_session(tx, word.session, stands, words, &word.cursor)
}

/// Adds the last status word of a session, sets the session to `stands`, and updates its record.
pub(crate) fn write_last_word<S: Alter>(
    tx: &mut Transaction<'_, S>,
    word: &NewWord,
    stands: SessionState,
    place: &RecordPlace,
) -> Result<usize, Error>
    requires session { word.now.session < 2 ^ 63 }
    requires room { HasRoom place.now }
    ensures { let last = writing.AddsLastWord word.now stands place.now in
        Writes S.Store (rows_after last) tx.old.conn tx.new.conn result }
{
    write_word(tx, word, stands)?;
    write_stop(tx, place, stands)
}

/// Ends a session that was aborted or reset, and sets its record to failed.
pub(crate) fn write_end<S: Alter>(
    tx: &mut Transaction<'_, S>,
    session: u64,
    place: &RecordPlace,
) -> Result<usize, Error>
    requires session { session < 2 ^ 63 }
    requires room { HasRoom place.now }
    ensures { Writes S.Store (rows_after (writing.Ends session place.now))
        tx.old.conn tx.new.conn result }
{
    set_end(tx, session)?;
    write_spoiled(tx, place)
}

/// Adds a discarded blank of a lot.
pub(crate) fn write_discard<S: Alter>(
    tx: &mut Transaction<'_, S>,
    blank: u64,
    lot: &Name,
    discarded: u64,
) -> Result<usize, Error>
    requires blank { blank < 2 ^ 63 }
    requires discarded { discarded + 1 < 2 ^ 63 }
    ensures { Writes S.Store (rows_after (writing.Discards blank lot.now discarded))
        tx.old.conn tx.new.conn result }
{
    add_blank(tx, blank, lot, true)?;
    set_lot(tx, lot, discarded + 1)
}
