//! Reads the state of a record, and the first waiting record of a batch.
ghost use Rattle.std.specs.Prelude.{IsTrue, OnOk, false, ◌<◌, ◌^◌, ◌≡◌};
ghost use Rattle.sqlite.specs.Held.{state};
ghost use Rattle.sqlite.specs.State.{HasCleanDisk};
ghost use Rattle.job_facts.specs.States.{first_waiting, record_state_of};
ghost use Rattle.row_reads.specs.Reads.{Looks, ReadsRows};
ghost use Rattle.store_reads.specs.Known.{Knows};
ghost use Rattle.store_reads.specs.ReadsContents.{FindsContents, ReadsContents};
ghost use Rattle.store_reads.specs.Waiting.{IsFirstWaiting};

use crate::known::Known;
use job_facts::RecordState;
use row_reads::{batch_id, record_named};
use sqlite::{Alter, Connection, Error};
use store_data::Name;

/// Returns the state of the record `rec` of the batch `batch`, or `None` if the batch doesn't
/// contain it.
pub fn record_state<S: Alter>(
    conn: &mut Connection<S>,
    batch: &Name,
    rec: &Name,
) -> Result<Option<RecordState>, Error>
    requires { conn.old.in_transaction ≡ false }
    ensures { FindsContents (state S.Store conn.old) (state S.Store conn.new) result
        (λ c answer. answer ≡ record_state_of c.facts batch.now rec.now) }
{
    row_laws::batches_by_name();
    row_laws::records_by_name();
    let Some(id) = batch_id(conn, batch)? else {
        return Ok(None);
    };
    let found = record_named(conn, id, rec)?;
    Ok(found.map(|card| card.stands))
}

/// Reads the state of the record `rec` of the batch with the id `id`, and caches it.
pub(crate) fn note_standing<S: Alter>(
    conn: &mut Connection<S>,
    known: &mut Known,
    id: u64,
    rec: &Name,
) -> Result<(), Error>
    requires idle { conn.old.in_transaction ≡ false }
    requires knows { Knows (state S.Store conn.old) known.old }
    requires id { id < 2 ^ 63 }
    ensures open { HasCleanDisk (state S.Store conn.new)
        → OnOk result (IsTrue (state S.Store conn.old).is_open) }
    ensures knows { Knows (state S.Store conn.new) known.new }
    ensures looks { Looks (state S.Store conn.old) (state S.Store conn.new) }
{
    let Some(card) = record_named(conn, id, rec)? else {
        return Ok(());
    };
    known.note(id, &card);
    Ok(())
}

// Returns the first waiting record of the batch with the id `id`, and caches its state.
fn waiting_of<S: Alter>(
    conn: &mut Connection<S>,
    known: &mut Known,
    id: u64,
) -> Result<Option<Name>, Error>
    requires idle { conn.old.in_transaction ≡ false }
    requires knows { Knows (state S.Store conn.old) known.old }
    requires id { id < 2 ^ 63 }
    ensures value { ReadsRows (state S.Store conn.old) (state S.Store conn.new) result
        (IsFirstWaiting id) }
    ensures knows { Knows (state S.Store conn.new) known.new }
    ensures looks { Looks (state S.Store conn.old) (state S.Store conn.new) }
{
    let Some(card) = row_reads::first_waiting(conn, id)? else {
        return Ok(None);
    };
    known.note(id, &card);
    Ok(Some(card.name))
}

/// Returns the first waiting record of the batch `batch`, in file order. The id of the batch is
/// read only if none of its records is cached.
pub fn first_waiting<S: Alter>(
    conn: &mut Connection<S>,
    known: &mut Known,
    batch: &Name,
) -> Result<Option<Name>, Error>
    requires idle { conn.old.in_transaction ≡ false }
    requires knows { Knows (state S.Store conn.old) known.old }
    ensures value { ReadsContents (state S.Store conn.old) (state S.Store conn.new) result
        (λ c answer. answer ≡ first_waiting c.facts batch.now) }
    ensures knows { Knows (state S.Store conn.new) known.new }
    ensures looks { Looks (state S.Store conn.old) (state S.Store conn.new) }
{
    row_laws::batches_by_name();
    row_laws::records_by_name();
    row_laws::records_of_batches();
    if let Some(card) = known.of_batch(batch) {
        let id = card.id;
        return waiting_of(conn, known, id);
    }
    let Some(id) = batch_id(conn, batch)? else {
        return Ok(None);
    };
    waiting_of(conn, known, id)
}
