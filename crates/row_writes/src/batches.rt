//! Inserts the row of a batch, in an open transaction. A crash before its commit leaves no trace of
//! it.
ghost use Rattle.std.specs.Prelude.{◌≡◌, ◌<◌, ◌^◌, []};
ghost use Rattle.sql_rows.specs.Encoding.{enc_code};
ghost use Rattle.sql_rows.specs.Writes.{Writes};
ghost use Rattle.table_rows.specs.After.{new_batch};
ghost use Rattle.table_rows.specs.Tables.{with_batch};

use sql_base::int;
use sqlite::types::ValueRef;
use sqlite::{Alter, Error, Transaction};
use store_data::{Enc, Name};

/// Returns the number that is stored for `enc`.
pub fn enc_code(enc: Enc) -> u64
    ensures { result ≡ enc_code enc }
{
    match enc {
        Enc::Plain => 0,
        Enc::All => 1,
        Enc::Mixed => 2,
    }
}

/// Adds a batch with `records` records, which are all waiting. The batch doesn't have the bytes of
/// its file yet (see `set_raw`).
pub fn add_batch<'x, S: Alter>(
    tx: &mut Transaction<'_, S>,
    id: u64,
    name: &'x Name,
    product: &'x Name,
    records: u32,
) -> Result<usize, Error>
    requires { id < 2 ^ 63 }
    ensures { Writes S.Store (with_batch (new_batch id name.now product.now [] records))
        tx.old.conn tx.new.conn result }
{
    tx.execute(
        "INSERT INTO batch (id, name, product, raw, closed, waiting, running, failed, withdrawn, \
        good, sessions, spoiled) VALUES (?1, ?2, ?3, ?4, 0, ?5, 0, 0, 0, 0, 0, 0)",
        &[
            int(id),
            ValueRef::Text(name.bytes()),
            ValueRef::Text(product.bytes()),
            ValueRef::Blob(&[]),
            int(u64::from(records)),
        ],
    )
}
