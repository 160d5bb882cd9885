//! Writes a change or a release and its reply, in one transaction.
ghost use Rattle.std.specs.Prelude.{◌≡◌, ◌<◌, ◌^◌, false, OnErr, OnOk};
ghost use Rattle.sqlite.specs.Held.{state};
ghost use Rattle.sqlite.specs.State.{HasCleanDisk, Survives};
ghost use Rattle.sql_base.specs.Ends.{Ends, IsKept, IsLeft};
ghost use Rattle.sql_rows.specs.Image.{Moves};
ghost use Rattle.sql_rows.specs.Writes.{Writes};
ghost use Rattle.table_rows.specs.After.{rows_written};
ghost use Rattle.job_facts.specs.Kept.{kept_reply};
ghost use Rattle.change_writes.specs.Undone.{LeavesNoTraceIfUndone};
ghost use Rattle.change_writes.specs.Writable.{IsWritable};

use crate::changes::write_change;
use crate::writable::is_writable;
use job_facts::{Entry, Failed};
use row_writes::add_reply;
use sql_base::laws;
use sqlite::{Alter, Connection, Error, Transaction};
use std::alloc::Global;
use table_rows::Writing;

// Writes the change or release and its reply, in an open transaction.
fn write_all<S: Alter>(
    tx: &mut Transaction<'_, S>,
    alloc: Global,
    entry: &Entry<'_>,
    writing: &Writing<'_>,
) -> Result<usize, Error>
    requires most { entry.now.number < 10 ^ 18 }
    requires writing { IsWritable writing.now }
    ensures { Writes S.Store (rows_written writing.now (kept_reply entry.now))
        tx.old.conn tx.new.conn result }
{
    write_change(tx, alloc, writing)?;
    add_reply(tx, entry)
}

/// Writes a change or a release and its reply, or neither. After a crash the database is as it
/// could be before the call, or has both.
///
/// # Errors
///
/// - `InvalidQuery` if a number of `writing` is 2^63 or higher, or the batch file of an import has
///   a fault
/// - any error of the database, including out of memory
///
/// A failure is `undone` unless the commit of the transaction itself fails.
pub fn commit<S: Alter>(
    conn: &mut Connection<S>,
    alloc: Global,
    entry: &Entry<'_>,
    writing: &Writing<'_>,
) -> Result<(), Failed<Error>>
    requires most { entry.now.number < 10 ^ 18 }
    requires idle { conn.old.in_transaction ≡ false }
    ensures ok { HasCleanDisk (state S.Store conn.new) → OnOk result
        (Ends (Moves (rows_written writing.now (kept_reply entry.now))) (state S.Store conn.old)
        (state S.Store conn.new)) }
    ensures err { HasCleanDisk (state S.Store conn.new)
        → OnErr result (IsKept (state S.Store conn.old) (state S.Store conn.new)) }
    ensures writable { OnOk result (IsWritable writing.now) }
    ensures idle { conn.new.in_transaction ≡ false }
    ensures crash { Survives (state S.Store conn.old) (state S.Store conn.new)
        (IsLeft (Moves (rows_written writing.now (kept_reply entry.now)))
        (state S.Store conn.old)) }
    ensures undone { LeavesNoTraceIfUndone (state S.Store conn.old) (state S.Store conn.new) result }
{
    if !is_writable(writing) {
        return Err(Failed::from(Error::InvalidQuery));
    }
    laws::is_committed(conn);
    let mut tx = conn.transaction();
    write_all(&mut tx, alloc, entry, writing)?;
    tx.commit().map_err(|fault| Failed {
        fault,
        undone: false,
    })
}
