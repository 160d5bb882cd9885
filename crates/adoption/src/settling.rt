//! Brings an audited database to the current schema.
ghost use Rattle.std.specs.Prelude.{◌≡◌, false, IfErr, IsTrue, OnErr, OnOk};
ghost use Rattle.sqlite.specs.Held.{state};
ghost use Rattle.sqlite.specs.State.{HasCleanDisk, Survives};
ghost use Rattle.sql_base.specs.Causes.{HadCause};
ghost use Rattle.sql_base.specs.Ends.{IsKept, IsLeft};
ghost use Rattle.sql_base.specs.Unchanged.{LooksWithCause};
ghost use Rattle.table_rows.specs.Tables.{Tables};
ghost use Rattle.adoption.specs.Adopts.{Settles};
ghost use Rattle.adoption.specs.EndsCommitted.{EndsCommitted};
ghost use Rattle.adoption.specs.Reading.{IsReading};
ghost use Rattle.adoption.specs.Unwritten.{LeavesOurs};

use examination::ExaminedRows;
use remaking::remake;
use sql_base::laws;
use sqlite::{Alter, Connection, Error};
use table_reads::with_reply_bytes;

// Checks that the connection is still open, because a fault at the end of a read may have closed
// it. Nothing is changed.
fn stay_open<S: Alter>(conn: &mut Connection<S>) -> Result<(), Error>
    requires { conn.old.in_transaction ≡ false }
    ensures open { HasCleanDisk (state S.Store conn.new)
        → OnOk result (IsTrue (state S.Store conn.new).is_open) }
    ensures looks { LooksWithCause S.Store conn.old conn.new result }
{
    laws::is_committed(conn);
    conn.prepare("SELECT number FROM version")?;
    Ok(())
}

// Rebuilds the tables of the current schema, with the same rows. The reply bytes are read now,
// because `examine` skips them. Returns `InvalidQuery` if the rows have changed since then.
// This happens only if the disk returned wrong data without an error, so it isn't reported as a
// disk error.
fn rebuild<S: Alter>(conn: &mut Connection<S>, rows: ExaminedRows) -> Result<(), Error>
    requires idle { conn.old.in_transaction ≡ false }
    ensures ok { HasCleanDisk (state S.Store conn.new) → OnOk result
        (EndsCommitted (Settles rows) (state S.Store conn.old) (state S.Store conn.new)) }
    ensures kept { HasCleanDisk (state S.Store conn.new)
        → OnErr result (IsKept (state S.Store conn.old) (state S.Store conn.new)) }
    ensures idle { conn.new.in_transaction ≡ false }
    ensures crash { Survives (state S.Store conn.old) (state S.Store conn.new)
        (IsLeft (Settles rows) (state S.Store conn.old)) }
    ensures cause { HasCleanDisk (state S.Store conn.new) → IfErr result
        (HadCause S.Store (state S.Store conn.old) (state S.Store conn.new)) }
{
    laws::is_live(conn);
    let Some(whole) = with_reply_bytes(conn, rows.tables)? else {
        return Err(Error::InvalidQuery);
    };
    remake(conn, rows.version, &whole)
}

/// Leaves the database unchanged, up to the last byte of each tree, if its tables are exactly as
/// the store creates them. Otherwise rebuilds the tables with the same rows in one transaction, and
/// reads the replies again with their bytes. After a crash the database is as it could be before
/// the call, or completely rebuilt.
pub(crate) fn settle<S: Alter>(conn: &mut Connection<S>, rows: ExaminedRows) -> Result<(), Error>
    requires idle { conn.old.in_transaction ≡ false }
    ensures ok { HasCleanDisk (state S.Store conn.new) → OnOk result
        (EndsCommitted (Settles rows) (state S.Store conn.old) (state S.Store conn.new)) }
    ensures kept { HasCleanDisk (state S.Store conn.new)
        → OnErr result (IsKept (state S.Store conn.old) (state S.Store conn.new)) }
    ensures unchanged { (t : Tables) → IsReading t (state S.Store conn.old).now rows
        → LeavesOurs (state S.Store conn.old) (state S.Store conn.new) }
    ensures idle { conn.new.in_transaction ≡ false }
    ensures crash { Survives (state S.Store conn.old) (state S.Store conn.new)
        (IsLeft (Settles rows) (state S.Store conn.old)) }
    ensures cause { HasCleanDisk (state S.Store conn.new) → IfErr result
        (HadCause S.Store (state S.Store conn.old) (state S.Store conn.new)) }
{
    table_reads::laws::our_rows_are_an_image();
    laws::is_committed(conn);
    laws::is_live(conn);
    if rows.as_made {
        return stay_open(conn);
    }
    rebuild(conn, rows)
}
