//! The schema versions. To get the schema of a version, its tables are created in memory.
ghost use Rattle.std.specs.Prelude.{◌≡◌, ◌↔◌, false, IfErr, IfOk, IfSome, IsTrue};
ghost use Rattle.std.specs.Prelude.{MatchOption, MatchResult};
ghost use Rattle.sqlite.specs.Held.{state};
ghost use Rattle.sqlite.specs.State.{is_disk_error};
ghost use Rattle.sql_tables.specs.Alike.{HasExactly};
ghost use Rattle.sql_tables.specs.Ours.{AreThere};
ghost use Rattle.sql_tables.specs.Tables.{our_schema};
ghost use Rattle.sql_tables.specs.Versions.{schema_of};

use crate::alike::has_exactly;
use crate::opening::{has_our_tables, make_in_memory};
use sqlite::{Alter, Connection, Error};
use sqlite_schema::schema::Schema;
use std::alloc::Global;

/// The schema version of a database.
#[derive(Clone, Copy, Debug, PartialEq, Eq)]
pub enum Version {
    /// Version 1, in which `enc` has two values, and which has no released request numbers.
    One,
    /// Version 2, which also has released request numbers.
    Two,
    /// Version 3, in which `enc` has a third value.
    Three,
}

/// Returns the schema of `version`, by creating its tables in memory. The order of the tables and
/// their tree numbers don't matter.
///
/// # Errors
///
/// Fails only if the database in memory fails, for example because an allocation fails. The error
/// is never a disk error.
pub fn tables_of(alloc: Global, version: Version) -> Result<Schema, Error>
    ensures { MatchResult result (λ schema. schema ≡ schema_of version)
        (λ e. is_disk_error e ≡ false) }
{
    let mut conn = Connection::open_in_memory(alloc)?;
    make_in_memory(&mut conn, version)?;
    Ok(conn.schema().copy(alloc)?)
}

// Returns `true` if the database has exactly the tables of `ours`. Each of them is then found by
// its name.
fn has_tables<S: Alter>(conn: &Connection<S>, ours: &Schema) -> bool
    ensures exact { IsTrue result ↔ HasExactly (state S.Store conn.now).now.schema ours.now }
    ensures there { IsTrue (state S.Store conn.now).is_open → IsTrue result
        → AreThere (state S.Store conn.now).now.schema ours.now.tables }
{
    has_exactly(conn.schema(), ours)
}

fn has_version<S: Alter>(
    alloc: Global,
    conn: &Connection<S>,
    version: Version,
) -> Result<bool, Error>
    ensures exact { IfOk result (λ has. IsTrue has
        ↔ HasExactly (state S.Store conn.now).now.schema (schema_of version)) }
    ensures there { IsTrue (state S.Store conn.now).is_open → IfOk result (λ has. IsTrue has
        → AreThere (state S.Store conn.now).now.schema (schema_of version).tables) }
    ensures cause { IfErr result (λ e. is_disk_error e ≡ false) }
{
    let ours = tables_of(alloc, version)?;
    Ok(has_tables(conn, &ours))
}

/// A schema version whose tables a database has.
#[derive(Clone, Copy, Debug, PartialEq, Eq)]
pub struct VersionMatch {
    pub version: Version,
    /// Whether the tables and indexes are exactly those that the store creates, which only those of
    /// the current version can be.
    pub is_exact: bool,
}

/// Returns the version whose tables the database has, or `None`. The tables can be in any order and
/// can have additional indexes that aren't unique. The database has no other table, no view and no
/// trigger. Each table of the version is then found by its name.
///
/// The tables of the current version are created in memory once, and those of an earlier version
/// only if the database has other tables.
///
/// # Errors
///
/// Fails only if the database in memory fails, for example because an allocation fails. The error
/// is never a disk error.
pub fn version_in<S: Alter>(
    alloc: Global,
    conn: &Connection<S>,
) -> Result<Option<VersionMatch>, Error>
    ensures exact { IfOk result (λ found. MatchOption found
        ((v : _) → ¬ HasExactly (state S.Store conn.now).now.schema (schema_of v))
        (λ m. HasExactly (state S.Store conn.now).now.schema (schema_of m.version))) }
    ensures there { IsTrue (state S.Store conn.now).is_open → IfOk result (λ found. IfSome found
        (λ m. AreThere (state S.Store conn.now).now.schema (schema_of m.version).tables)) }
    ensures created { IfOk result (λ found. IfSome found
        (λ m. IsTrue m.is_exact ↔ ((state S.Store conn.now).now.schema ≡ our_schema))) }
    ensures cause { IfErr result (λ e. is_disk_error e ≡ false) }
{
    let ours = tables_of(alloc, Version::Three)?;
    let is_exact = has_our_tables(conn, &ours);
    if has_tables(conn, &ours) {
        let version = Version::Three;
        return Ok(Some(VersionMatch { version, is_exact }));
    }
    if has_version(alloc, conn, Version::Two)? {
        let version = Version::Two;
        return Ok(Some(VersionMatch { version, is_exact }));
    }
    if has_version(alloc, conn, Version::One)? {
        let version = Version::One;
        return Ok(Some(VersionMatch { version, is_exact }));
    }
    Ok(None)
}
