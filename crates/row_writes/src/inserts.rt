//! Inserts single rows, in an open transaction. A crash before its commit leaves no trace of them.
ghost use Rattle.std.specs.Prelude.{◌<◌, ◌^◌};
ghost use Rattle.job_facts.specs.Contents.{Mark};
ghost use Rattle.sql_rows.specs.Writes.{Writes, WritesWithCause};
ghost use Rattle.table_rows.specs.After.{new_lot};
ghost use Rattle.job_facts.specs.Kept.{kept_reply};
ghost use Rattle.table_rows.specs.Tables.{StoredRemake, with_lot, with_mark, with_product};
ghost use Rattle.table_rows.specs.Tables.{with_remake, with_reply};

use job_facts::{Entry, Lot};
use sql_base::int;
use sqlite::types::ValueRef;
use sqlite::{Alter, Error, Transaction};
use store_data::{Name, Product};

/// Adds a product.
pub fn add_product<S: Alter>(tx: &mut Transaction<'_, S>, product: &Product) -> Result<usize, Error>
    ensures { Writes S.Store (with_product product.now) tx.old.conn tx.new.conn result }
{
    tx.execute(
        "INSERT INTO product (name, max, low, checked) VALUES (?1, ?2, ?3, ?4)",
        &[
            ValueRef::Text(product.code.bytes()),
            int(u64::from(product.max)),
            int(u64::from(product.low)),
            int(u64::from(product.check)),
        ],
    )
}

/// Adds a lot without discarded blanks.
pub fn add_lot<S: Alter>(tx: &mut Transaction<'_, S>, lot: &Lot) -> Result<usize, Error>
    requires { lot.now.first < 2 ^ 63 }
    ensures { Writes S.Store (with_lot (new_lot lot.now)) tx.old.conn tx.new.conn result }
{
    tx.execute(
        "INSERT INTO lot (name, product, low_serial, amount, discarded) \
        VALUES (?1, ?2, ?3, ?4, 0)",
        &[
            ValueRef::Text(lot.name.bytes()),
            ValueRef::Text(lot.product.bytes()),
            int(lot.first),
            int(u64::from(lot.count)),
        ],
    )
}

/// Adds the remake number `turn` of the record at position `place` of the batch with id `batch`.
pub fn add_remake<S: Alter>(
    tx: &mut Transaction<'_, S>,
    batch: u64,
    place: u64,
    turn: u64,
) -> Result<usize, Error>
    requires batch { batch < 2 ^ 63 }
    requires place { place < 2 ^ 63 }
    requires turn { turn < 2 ^ 63 }
    ensures { let row : StoredRemake = record {
      batch = batch;
      place = place;
      turn = turn;
    } in
        WritesWithCause S.Store (with_remake row) tx.old.conn tx.new.conn result }
{
    tx.execute(
        "INSERT INTO remake (batch, place, turn) VALUES (?1, ?2, ?3)",
        &[int(batch), int(place), int(turn)],
    )
}

/// Adds a kept reply.
pub fn add_reply<S: Alter>(tx: &mut Transaction<'_, S>, entry: &Entry<'_>) -> Result<usize, Error>
    requires { entry.now.number < 2 ^ 63 }
    ensures { Writes S.Store (with_reply (kept_reply entry.now)) tx.old.conn tx.new.conn result }
{
    tx.execute(
        "INSERT INTO reply (client, number, ask, status, body) VALUES (?1, ?2, ?3, ?4, ?5)",
        &[
            ValueRef::Text(entry.client.bytes()),
            int(entry.number),
            ValueRef::Blob(entry.ask),
            int(u64::from(entry.status)),
            ValueRef::Blob(entry.body),
        ],
    )
}

/// Adds the release mark `upto` of `client`.
pub fn add_mark<S: Alter>(
    tx: &mut Transaction<'_, S>,
    client: &Name,
    upto: u64,
) -> Result<usize, Error>
    requires { upto < 2 ^ 63 }
    ensures { let mark : Mark = record { client = client.now; upto = upto } in
        Writes S.Store (with_mark mark) tx.old.conn tx.new.conn result }
{
    tx.execute(
        "INSERT INTO mark (client, upto) VALUES (?1, ?2)",
        &[ValueRef::Text(client.bytes()), int(upto)],
    )
}
