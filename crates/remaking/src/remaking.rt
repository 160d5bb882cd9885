//! Rebuilds a database with tables of any schema version, in one transaction.
ghost use Rattle.std.specs.Prelude.{◌≡◌, ⊤, false};
ghost use Rattle.sql_base.specs.Unchanged.{TransactsWithCause};
ghost use Rattle.remaking.specs.Remakes.{Remakes};

use crate::anew::make_anew;
use crate::filling::fill;
use sql_base::{UnitOfWork, transact};
use sql_tables::Version;
use sqlite::{Alter, Connection, Error, Transaction};
use table_rows::Tables;

// The work of `remake`.
#[derive(Drop)]
struct Remaking<'a> {
    version: Version,
    tables: &'a Tables,
}

impl<'a> UnitOfWork for Remaking<'a> {
    ghost makes = { λ remaking. Remakes remaking.version remaking.tables.now };

    ghost explains = { ⊤ };

    fn run<S: Alter>(&self, tx: &mut Transaction<'_, S>) -> Result<(), Error> {
        make_anew(tx, self.version)?;
        fill(tx, self.tables)
    }
}

/// Drops the tables of `version`, creates the tables of the current schema and inserts the rows
/// `tables`, or does nothing. After a crash the database is as it could be before the call, or
/// completely rebuilt.
///
/// # Errors
///
/// - `InvalidQuery` if a number is 2^63 or higher
/// - the error of SQLite if a table doesn't accept a row
/// - any other error of the database, including out of memory
pub fn remake<S: Alter>(
    conn: &mut Connection<S>,
    version: Version,
    tables: &Tables,
) -> Result<(), Error>
    requires idle { conn.old.in_transaction ≡ false }
    ensures { TransactsWithCause S.Store (Remakes version tables.now) conn.old conn.new result }
{
    transact(conn, &Remaking { version, tables })
}
