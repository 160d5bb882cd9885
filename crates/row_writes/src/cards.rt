//! Writes sessions, their status words and their blanks, in an open transaction. A crash before its
//! commit leaves no trace of them.
ghost use Rattle.std.specs.Prelude.{◌≡◌, ◌<◌, ◌^◌};
ghost use Rattle.sql_rows.specs.Encoding.{session_code};
ghost use Rattle.sql_rows.specs.Writes.{Writes};
ghost use Rattle.table_rows.specs.After.{new_session};
ghost use Rattle.table_rows.specs.Tables.{StoredBlank, StoredWord, with_blank, with_session};
ghost use Rattle.table_rows.specs.Tables.{with_session_set, with_word};

use job_facts::SessionState;
use sql_base::int;
use sqlite::types::ValueRef;
use sqlite::{Alter, Error, Transaction};
use store_data::{Cursor, Name};
use table_rows::RecordPlace;

/// Returns the number that is stored for the session state `stands`.
pub fn session_code(stands: SessionState) -> u64
    ensures { result ≡ session_code stands }
{
    match stands {
        SessionState::Running => 0,
        SessionState::Good => 1,
        SessionState::Spoiled => 2,
    }
}

/// Adds the status word `sw` at position `place` of `session`.
pub fn add_word<S: Alter>(
    tx: &mut Transaction<'_, S>,
    session: u64,
    place: u32,
    sw: u16,
) -> Result<usize, Error>
    requires { session < 2 ^ 63 }
    ensures { let word : StoredWord = record {
      session = session;
      place = place;
      sw = sw;
    } in
        Writes S.Store (with_word word) tx.old.conn tx.new.conn result }
{
    tx.execute(
        "INSERT INTO word (session, place, sw) VALUES (?1, ?2, ?3)",
        &[int(session), int(u64::from(place)), int(u64::from(sw))],
    )
}

/// Sets the state of `session`, the number of its status words, and the cursor of its card.
pub fn set_session<S: Alter>(
    tx: &mut Transaction<'_, S>,
    session: u64,
    stands: SessionState,
    words: u64,
    cursor: &Cursor,
) -> Result<usize, Error>
    requires session { session < 2 ^ 63 }
    requires words { words < 2 ^ 63 }
    ensures { Writes S.Store (with_session_set session stands words cursor.now)
        tx.old.conn tx.new.conn result }
{
    tx.execute(
        "UPDATE session SET state = ?2, words = ?3, app = ?4, segment = ?5, at_offset = ?6, \
        block = ?7 WHERE id = ?1",
        &[
            int(session),
            int(session_code(stands)),
            int(words),
            int(u64::from(cursor.app)),
            int(u64::from(cursor.segment)),
            int(u64::from(cursor.offset)),
            int(u64::from(cursor.block)),
        ],
    )
}

/// Adds a running session for a record, with the cursor at the first command.
pub fn add_session<S: Alter>(
    tx: &mut Transaction<'_, S>,
    id: u64,
    place: &RecordPlace,
    machine: &Name,
    blank: u64,
) -> Result<usize, Error>
    requires id { id < 2 ^ 63 }
    requires batch { place.now.batch < 2 ^ 63 }
    requires place { place.now.place < 2 ^ 63 }
    requires blank { blank < 2 ^ 63 }
    ensures { Writes S.Store (with_session (new_session id place.now machine.now blank))
        tx.old.conn tx.new.conn result }
{
    tx.execute(
        "INSERT INTO session (id, machine, batch, place, serial, state, ended, words, app, \
        segment, at_offset, block) VALUES (?1, ?2, ?3, ?4, ?5, 0, 0, 0, 0, 0, 0, 0)",
        &[
            int(id),
            ValueRef::Text(machine.bytes()),
            int(place.batch),
            int(place.place),
            int(blank),
        ],
    )
}

/// Adds a charged blank of `lot`, opened or discarded.
pub fn add_blank<S: Alter>(
    tx: &mut Transaction<'_, S>,
    serial: u64,
    lot: &Name,
    discarded: bool,
) -> Result<usize, Error>
    requires { serial < 2 ^ 63 }
    ensures { let blank : StoredBlank = record {
      serial = serial;
      lot = lot.now;
      discarded = discarded;
    } in
        Writes S.Store (with_blank blank) tx.old.conn tx.new.conn result }
{
    tx.execute(
        "INSERT INTO blank (serial, lot, kind) VALUES (?1, ?2, ?3)",
        &[
            int(serial),
            ValueRef::Text(lot.bytes()),
            int(u64::from(discarded)),
        ],
    )
}
