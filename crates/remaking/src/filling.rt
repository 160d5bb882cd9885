//! Inserts the rows of all tables, in an open transaction. A crash before its commit leaves no
//! trace of them.
ghost use Rattle.std.specs.Prelude.{OnOk};
ghost use Rattle.sqlite.specs.Held.{state};
ghost use Rattle.sqlite.specs.State.{HasCleanDisk};
ghost use Rattle.sql_base.specs.Unchanged.{LeavesNoTraceWithCause};
ghost use Rattle.sql_rows.specs.Image.{IsImage};
ghost use Rattle.table_rows.specs.Tables.{no_rows};
ghost use Rattle.sql_rows.specs.Many.{WritesMany};
ghost use Rattle.remaking.specs.Rows.{with_all, without_bytes};

use crate::bytes::set_bytes;
use crate::putting::PutRows;
use sqlite::{Alter, Error, Transaction};
use table_rows::Tables;

/// Inserts the rows of all tables, and sets the bytes of batches last. A row is inserted after the
/// rows that it refers to. After an error the caller must drop the transaction.
///
/// # Errors
///
/// - `InvalidQuery` if a number is 2^63 or higher
/// - the error of SQLite if a table doesn't accept a row
/// - any other error of the database, including out of memory
pub(crate) fn fill<S: Alter>(tx: &mut Transaction<'_, S>, tables: &Tables) -> Result<(), Error>
    ensures wrote { WritesMany (with_all tables.now) (state S.Store tx.old.conn.now)
        (state S.Store tx.new.conn.now) result }
    ensures alone { HasCleanDisk (state S.Store tx.new.conn.now)
        → OnOk result (IsImage no_rows (state S.Store tx.old.conn.now).now
        → IsImage tables.now (state S.Store tx.new.conn.now).now) }
    ensures no_trace { LeavesNoTraceWithCause S.Store tx.old.conn tx.new.conn result }
{
    fill_bare(tx, tables)?;
    set_bytes(tx, tables.batches.as_slice())
}

// Inserts the rows of all tables, without the bytes of batches.
fn fill_bare<S: Alter>(tx: &mut Transaction<'_, S>, tables: &Tables) -> Result<(), Error>
    ensures wrote { WritesMany (with_all (without_bytes tables.now)) (state S.Store tx.old.conn.now)
        (state S.Store tx.new.conn.now) result }
    ensures no_trace { LeavesNoTraceWithCause S.Store tx.old.conn tx.new.conn result }
{
    let names = (tables.products.as_slice(), tables.lots.as_slice());
    let records = (tables.records.as_slice(), tables.groupings.as_slice());
    let files = (tables.batches.as_slice(), records);
    let sessions = (tables.sessions.as_slice(), tables.words.as_slice());
    let blanks = (tables.blanks.as_slice(), tables.remakes.as_slice());
    let kept = (tables.replies.as_slice(), tables.marks.as_slice());
    ((names, files), ((sessions, blanks), kept)).put_rows(tx)
}
