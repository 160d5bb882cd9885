//! The statements that read the table `session`.
ghost use Rattle.std.specs.Prelude.{◌≡◌, ◌<◌, ◌^◌, false, filter, find, option_map, All, IfOk};
ghost use Rattle.std.specs.Prelude.{IfSome, IsOk, IsPermutation, map};
ghost use Rattle.sqlite.specs.Held.{state};
ghost use Rattle.store_data.specs.Cursor.{IsCursor};
ghost use Rattle.row_reads.specs.CardDecoding.{IsGoodCard, IsSessionAt, cursor_in, good_at};
ghost use Rattle.row_reads.specs.CardDecoding.{good_in, session_at, session_in};
ghost use Rattle.row_reads.specs.Extremes.{IsGreatest};
ghost use Rattle.row_reads.specs.Readable.{FailsForMemory, IsCursorAnswer, IsGoodAnswer};
ghost use Rattle.row_reads.specs.Readable.{IsSessionAnswer};
ghost use Rattle.row_reads.specs.Reads.{FindsRows};
ghost use Rattle.table_rows.specs.Keys.{is_good_of, is_running_on, is_session};
ghost use Rattle.table_rows.specs.Tables.{PassesOnce, StoredSession};

use crate::answered::{Answered, all_of, one_of};
use crate::values::{first_number, name_at, number_at, session_state, within_at};
use job_facts::SessionState;
use sql_base::{int, rows_of};
use sqlite::types::ValueRef;
use sqlite::{Alter, Connection, Error, Row};
use store_data::{Cursor, Name};

/// A session with its state and its cursor.
#[derive(Clone, Copy)]
pub struct SessionAt {
    /// The machine.
    pub machine: Name,
    /// The id of the batch.
    pub batch: u64,
    /// The position of the record in its batch, from 0.
    pub place: u64,
    /// The state of the session.
    pub stands: SessionState,
    /// The number of status words.
    pub words: u64,
    /// The cursor of the card.
    pub cursor: Cursor,
}

/// A good card.
#[derive(Clone, Copy)]
pub struct GoodCard {
    /// The position of the record in its batch, from 0.
    pub place: u64,
    /// The serial of the blank.
    pub serial: u64,
}

// Reads the cursor in columns 5 to 8.
fn cursor_in(row: &Row) -> Result<Cursor, Error>
    ensures value { IfOk result (λ c. c ≡ cursor_in row.now) }
    ensures ranged { IfOk result IsCursor }
    ensures total { IsCursorAnswer row.now → IsOk result }
{
    Ok(Cursor {
        app: within_at(row, 5, 0, 4096)? as u16,
        segment: within_at(row, 6, 0, 998)? as u16,
        offset: within_at(row, 7, 0, 65535)?,
        block: within_at(row, 8, 0, 256)? as u16,
    })
}

impl Answered for SessionAt {
    ghost value = { session_in };

    ghost fits = { IsSessionAt };

    ghost readable = { IsSessionAnswer };

    fn read(row: &Row) -> Result<SessionAt, Error> {
        Ok(SessionAt {
            machine: name_at(row, 0)?,
            batch: number_at(row, 1)?,
            place: number_at(row, 2)?,
            stands: session_state(number_at(row, 3)?)?,
            words: number_at(row, 4)?,
            cursor: cursor_in(row)?,
        })
    }
}

/// Returns the session with the id `id`.
pub fn session<S: Alter>(conn: &mut Connection<S>, id: u64) -> Result<Option<SessionAt>, Error>
    requires idle { conn.old.in_transaction ≡ false }
    requires id { id < 2 ^ 63 }
    ensures finds { FindsRows (state S.Store conn.old) (state S.Store conn.new) result
        (λ t found. PassesOnce (is_session id) t.sessions
        → found ≡ option_map session_at (find (is_session id) t.sessions)) }
    ensures ranged { IfOk result (λ found. IfSome found IsSessionAt) }
{
    let sql =
        "SELECT machine, batch, place, state, words, app, segment, at_offset, block FROM session \
        WHERE id = ?1";
    one_of(conn, sql, &[int(id)])
}

/// Returns the id of the running session of `machine`.
pub fn running_session<S: Alter>(
    conn: &mut Connection<S>,
    machine: &Name,
) -> Result<Option<u64>, Error>
    requires { conn.old.in_transaction ≡ false }
    ensures finds { FindsRows (state S.Store conn.old) (state S.Store conn.new) result
        (λ t found. PassesOnce (is_running_on machine.now) t.sessions
        → found ≡ option_map (λ (s : StoredSession). s.id)
        (find (is_running_on machine.now) t.sessions)) }
    ensures ranged { IfOk result (λ found. IfSome found (λ id. id < 2 ^ 63)) }
{
    let sql = "SELECT id FROM session WHERE machine = ?1 AND state = 0";
    one_of(conn, sql, &[ValueRef::Text(machine.bytes())])
}

/// Returns the highest id of a session, or 0 if no session exists.
pub fn last_session<S: Alter>(conn: &mut Connection<S>) -> Result<u64, Error>
    requires { conn.old.in_transaction ≡ false }
    ensures finds { FindsRows (state S.Store conn.old) (state S.Store conn.new) result
        (λ t id. IsGreatest (map (λ (s : StoredSession). s.id) t.sessions) id) }
    ensures ranged { IfOk result (λ id. id < 2 ^ 63) }
{
    let rows = rows_of(conn, "SELECT id FROM session ORDER BY id DESC LIMIT 1", &[])?;
    first_number(rows.as_slice())
}

impl Answered for GoodCard {
    ghost value = { good_in };

    ghost fits = { IsGoodCard };

    ghost readable = { IsGoodAnswer };

    fn read(row: &Row) -> Result<GoodCard, Error> {
        let place = number_at(row, 0)?;
        let serial = number_at(row, 1)?;
        Ok(GoodCard { place, serial })
    }
}

/// Returns the good cards of the batch with the id `batch`, in any order.
pub fn good_sessions<S: Alter>(conn: &mut Connection<S>, batch: u64) -> Result<Vec<GoodCard>, Error>
    requires idle { conn.old.in_transaction ≡ false }
    requires batch { batch < 2 ^ 63 }
    ensures finds { FindsRows (state S.Store conn.old) (state S.Store conn.new) result
        (λ t all. IsPermutation (map good_at (filter (is_good_of batch) t.sessions)) all.items) }
    ensures ranged { IfOk result (λ all. All IsGoodCard all.items) }
{
    let sql = "SELECT place, serial FROM session WHERE batch = ?1 AND state = 1";
    all_of(conn, sql, &[int(batch)])
}
