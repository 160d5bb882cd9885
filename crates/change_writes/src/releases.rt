//! Releases request numbers of a client, in an open transaction. A crash before its commit leaves
//! no trace of the release.
ghost use Rattle.std.specs.Prelude.{◌<◌, ◌^◌};
ghost use Rattle.sql_rows.specs.Writes.{Writes};
ghost use Rattle.table_rows.specs.After.{rows_after};
ghost use Rattle.table_rows.specs.declared.writing.Writing.TheVariants as writing;

use row_writes::{add_mark, drop_mark, drop_replies};
use sqlite::{Alter, Error, Transaction};
use store_data::Name;

/// Deletes the kept replies of `client` up to the request number `upto`, and sets its release mark.
pub(crate) fn write_release<S: Alter>(
    tx: &mut Transaction<'_, S>,
    client: &Name,
    upto: u64,
) -> Result<usize, Error>
    requires { upto < 2 ^ 63 }
    ensures { Writes S.Store (rows_after (writing.Releases client.now upto))
        tx.old.conn tx.new.conn result }
{
    drop_replies(tx, client, upto)?;
    drop_mark(tx, client)?;
    add_mark(tx, client, upto)
}
