//! Creates the tables in an empty database.
ghost use Rattle.std.specs.Prelude.{◌≡◌, ◌↔◌, ⊤, false, IfErr, IsTrue, OnOk};
ghost use Rattle.sqlite.specs.Held.{state};
ghost use Rattle.sqlite.specs.State.{HasCleanDisk, is_disk_error};
ghost use Rattle.sqlite.specs.Steps.{over_memory};
ghost use Rattle.sql_base.specs.Ends.{Wrote};
ghost use Rattle.sql_base.specs.Unchanged.{LeavesNoTraceWithCause, TransactsWithCause};
ghost use Rattle.sql_tables.specs.Opening.{AddsVersion, Makes, MakesAll, MakesVersion};
ghost use Rattle.sql_tables.specs.Tables.{our_schema};

use crate::each::{Runs, run_both};
use crate::parts::are_same;
use crate::texts::texts_of;
use crate::versions::Version;
use sql_base::{UnitOfWork, make, transact};
use sqlite::{Alter, Connection, Error, MemStore, Transaction};
use sqlite_schema::schema::Schema;

// Statements that create tables and indexes, given by their texts.
struct Making;

impl<'a> Runs<&'a str> for Making {
    ghost makes = { λ text. Makes text.now };

    ghost explains = { ⊤ };

    fn run<S: Alter>(tx: &mut Transaction<'_, S>, text: &&'a str) -> Result<usize, Error> {
        make(tx, text)
    }
}

// Creates the tables and indexes of `version`.
fn make_version<S: Alter>(tx: &mut Transaction<'_, S>, version: Version) -> Result<(), Error>
    ensures made { HasCleanDisk (state S.Store tx.new.conn.now)
        → Wrote (MakesVersion version) (state S.Store tx.old.conn.now)
        (state S.Store tx.new.conn.now) result }
    ensures no_trace { LeavesNoTraceWithCause S.Store tx.old.conn tx.new.conn result }
{
    let (first, rest) = texts_of(version);
    run_both::<Making, &str, S>(tx, first, rest)
}

// Inserts the row of `version`, in an open transaction.
fn add_version<S: Alter>(tx: &mut Transaction<'_, S>) -> Result<usize, Error>
    ensures made { HasCleanDisk (state S.Store tx.new.conn.now)
        → Wrote AddsVersion (state S.Store tx.old.conn.now)
        (state S.Store tx.new.conn.now) result }
    ensures no_trace { LeavesNoTraceWithCause S.Store tx.old.conn tx.new.conn result }
{
    tx.execute("INSERT INTO version (id, number) VALUES (1, 3)", &[])
}

/// Creates the tables and indexes of the current schema and inserts the row of `version`, in the
/// open transaction `tx`. A crash leaves no trace of them.
pub fn make_all<S: Alter>(tx: &mut Transaction<'_, S>) -> Result<(), Error>
    ensures made { HasCleanDisk (state S.Store tx.new.conn.now)
        → Wrote MakesAll (state S.Store tx.old.conn.now)
        (state S.Store tx.new.conn.now) result }
    ensures no_trace { LeavesNoTraceWithCause S.Store tx.old.conn tx.new.conn result }
{
    make_version(tx, Version::Three)?;
    add_version(tx)?;
    Ok(())
}

// The work of `make_all`.
struct All;

impl UnitOfWork for All {
    ghost makes = { λ _. MakesAll };

    ghost explains = { ⊤ };

    fn run<S: Alter>(&self, tx: &mut Transaction<'_, S>) -> Result<(), Error> {
        make_all(tx)
    }
}

/// Creates the tables and indexes of the current schema and inserts the row of `version`, in one
/// transaction. After a crash the database is as it could be before the call, or has all of them.
pub fn make_tables<S: Alter>(conn: &mut Connection<S>) -> Result<(), Error>
    requires { conn.old.in_transaction ≡ false }
    ensures { TransactsWithCause S.Store MakesAll conn.old conn.new result }
{
    transact(conn, &All)
}

// Creates the tables and indexes of `version` in memory, in one transaction. A database in memory
// has no disk, so an error is never a disk error.
pub(crate) fn make_in_memory(conn: &mut Connection<MemStore>, version: Version) -> Result<(), Error>
    requires { conn.old.in_transaction ≡ false }
    ensures made { OnOk result (MakesVersion version (state over_memory conn.old).now
        (state over_memory conn.new).now) }
    ensures cause { IfErr result (λ e. is_disk_error e ≡ false) }
{
    let mut tx = conn.transaction();
    make_version(&mut tx, version)?;
    tx.commit()
}

/// Returns `true` if the database has exactly the tables and indexes that `make_tables` creates,
/// and nothing else.
pub(crate) fn has_our_tables<S: Alter>(conn: &Connection<S>, ours: &Schema) -> bool
    requires { ours.now ≡ our_schema }
    ensures { IsTrue result ↔ ((state S.Store conn.now).now.schema ≡ our_schema) }
{
    are_same(conn.schema(), ours)
}
