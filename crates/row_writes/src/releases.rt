//! Deletes rows, in an open transaction. A crash before its commit leaves no trace of the deletion.
ghost use Rattle.std.specs.Prelude.{◌<◌, ◌^◌};
ghost use Rattle.sql_rows.specs.Writes.{Writes};
ghost use Rattle.table_rows.specs.Tables.{without_mark, without_replies};

use sql_base::int;
use sqlite::types::ValueRef;
use sqlite::{Alter, Error, Transaction};
use store_data::Name;

/// Deletes the replies that are kept under request numbers of `client` up to `upto`.
pub fn drop_replies<S: Alter>(
    tx: &mut Transaction<'_, S>,
    client: &Name,
    upto: u64,
) -> Result<usize, Error>
    requires { upto < 2 ^ 63 }
    ensures { Writes S.Store (without_replies client.now upto) tx.old.conn tx.new.conn result }
{
    tx.execute(
        "DELETE FROM reply WHERE client = ?1 AND number <= ?2",
        &[ValueRef::Text(client.bytes()), int(upto)],
    )
}

/// Deletes the release mark of `client`.
pub fn drop_mark<S: Alter>(tx: &mut Transaction<'_, S>, client: &Name) -> Result<usize, Error>
    ensures { Writes S.Store (without_mark client.now) tx.old.conn tx.new.conn result }
{
    tx.execute(
        "DELETE FROM mark WHERE client = ?1",
        &[ValueRef::Text(client.bytes())],
    )
}
