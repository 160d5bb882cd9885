//! Reads a session by its number or by its machine.
ghost use Rattle.std.specs.Prelude.{IfOk, IfSome, false, ◌≡◌};
ghost use Rattle.sqlite.specs.Held.{state};
ghost use Rattle.store_data.specs.Cursor.{IsCursor};
ghost use Rattle.job_facts.specs.declared.rows.SessionRow.{SessionRow as SessionRowValue};
ghost use Rattle.job_facts.specs.Rows.{session_row_of};
ghost use Rattle.job_facts.specs.States.{running_session};
ghost use Rattle.row_reads.specs.Reads.{Looks};
ghost use Rattle.store_reads.specs.Known.{Knows};
ghost use Rattle.store_reads.specs.Sessions.{row_named};
ghost use Rattle.store_reads.specs.ReadsContents.{FindsContents, ReadsContents};

use crate::known::Known;
use crate::numbers::is_in_range;
use job_facts::SessionRow;
use row_reads::{SessionAt, batch_name, record_at};
use sqlite::{Alter, Connection, Error};
use store_data::Name;

// Returns the session with the names of its batch and its record.
fn row_named(found: &SessionAt, batch: Name, rec: Name) -> SessionRow
    ensures { result ≡ row_named found.now batch rec }
{
    SessionRow {
        machine: found.machine,
        batch,
        rec,
        stands: found.stands,
        words: found.words,
        cursor: found.cursor,
    }
}

/// Returns the session with the number `session`. The names of its batch and its record are read
/// only if the record isn't cached.
pub fn session<S: Alter>(
    conn: &mut Connection<S>,
    known: &Known,
    session: u64,
) -> Result<Option<SessionRow>, Error>
    requires idle { conn.old.in_transaction ≡ false }
    requires knows { Knows (state S.Store conn.old) known.now }
    ensures value { ReadsContents (state S.Store conn.old) (state S.Store conn.new) result
        (λ c answer. answer ≡ session_row_of c.facts session) }
    ensures ranged { IfOk result
        (λ answer. IfSome answer (λ (row : SessionRowValue). IsCursor row.cursor)) }
    ensures looks { Looks (state S.Store conn.old) (state S.Store conn.new) }
{
    if !is_in_range(session) {
        return Err(Error::InvalidQuery);
    }
    row_laws::sessions_by_number();
    row_laws::batches_by_id();
    row_laws::batches_by_name();
    row_laws::records_by_name();
    row_laws::records_by_place();
    let Some(found) = row_reads::session(conn, session)? else {
        return Ok(None);
    };
    if let Some(card) = known.at(found.batch, found.place) {
        return Ok(Some(row_named(&found, card.batch, card.rec)));
    }
    let Some(batch) = batch_name(conn, found.batch)? else {
        return Ok(None);
    };
    let Some(card) = record_at(conn, found.batch, found.place)? else {
        return Ok(None);
    };
    Ok(Some(row_named(&found, batch, card.name)))
}

/// Returns the number of the running session of `machine`.
pub fn running_session<S: Alter>(
    conn: &mut Connection<S>,
    machine: &Name,
) -> Result<Option<u64>, Error>
    requires { conn.old.in_transaction ≡ false }
    ensures { FindsContents (state S.Store conn.old) (state S.Store conn.new) result
        (λ c answer. answer ≡ running_session c.facts machine.now) }
{
    row_laws::running_sessions_by_machine();
    row_reads::running_session(conn, machine)
}
