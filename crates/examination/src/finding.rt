//! Examines a database: finds its schema version, reads its rows and audits them.
ghost use Rattle.std.specs.Prelude.{◌≡◌, ◌↔◌, false, IfErr, IfOk, IsTrue};
ghost use Rattle.sqlite.specs.Held.{state};
ghost use Rattle.sqlite.specs.State.{HasCleanDisk, is_disk_error};
ghost use Rattle.sql_base.specs.Unchanged.{LooksWithCause};
ghost use Rattle.sql_tables.specs.Alike.{HasExactly};
ghost use Rattle.sql_tables.specs.Versions.{schema_of};
ghost use Rattle.sql_tables.specs.declared.versions.Version.{Version as OfVersion};
ghost use Rattle.examination.specs.Differences.{Differs, nearest};
ghost use Rattle.examination.specs.Findings.{IsDamageOf, IsFinding, IsWhole};
ghost use Rattle.examination.specs.Standings.{IsSchemaMatch};

use crate::difference::Difference;
use crate::schemas::{nearest, schema_difference};
use audit_rows::{Rule, first_failing};
use sql_tables::{Version, VersionMatch, tables_of, version_in};
use sqlite::{Alter, Connection, Error};
use std::alloc::Global;
use table_reads::{HeldRows, read_for_audit, says};
use table_rows::Tables;

// Returns the difference between the tables and the nearest version. An error is never a disk
// error.
fn nearest_difference<S: Alter>(alloc: Global, conn: &Connection<S>) -> Result<Difference, Error>
    requires { (v : OfVersion) → ¬ HasExactly (state S.Store conn.now).now.schema (schema_of v) }
    ensures value { IfOk result (Differs (schema_of (nearest (state S.Store conn.now).now.schema))
        (state S.Store conn.now).now.schema) }
    ensures cause { IfErr result (λ e. is_disk_error e ≡ false) }
{
    let schema = conn.schema();
    let ours = tables_of(alloc, nearest(schema))?;
    Ok(schema_difference(alloc, schema, &ours)?)
}

/// The version of a database.
#[derive(Drop)]
pub(crate) enum SchemaMatch {
    /// The tables are the tables of a version.
    Ours { found: VersionMatch },
    /// The tables aren't the tables of any schema version.
    NotOurs { difference: Difference },
}

// Returns the version whose tables the database has, if the row of `version` has its number, and
// otherwise the difference.
fn standing_of<S: Alter>(alloc: Global, conn: &mut Connection<S>) -> Result<SchemaMatch, Error>
    requires { conn.old.in_transaction ≡ false }
    ensures value { HasCleanDisk (state S.Store conn.new)
        → IfOk result (IsSchemaMatch (state S.Store conn.old).now) }
    ensures looks { LooksWithCause S.Store conn.old conn.new result }
{
    let Some(found) = version_in(alloc, conn)? else {
        let difference = nearest_difference(alloc, conn)?;
        return Ok(SchemaMatch::NotOurs { difference });
    };
    if says(conn, found.version)? {
        Ok(SchemaMatch::Ours { found })
    } else {
        let difference = Difference::OtherVersion;
        Ok(SchemaMatch::NotOurs { difference })
    }
}

/// The rows of a database.
#[derive(Drop)]
pub struct ExaminedRows {
    /// The schema version.
    pub version: Version,
    /// The rows of all tables except `version`, sorted. Replies are without their request bytes and
    /// bodies.
    pub tables: Tables,
    /// Whether the tables and indexes are exactly those that the store creates, and all rowids in
    /// each table are different.
    pub as_made: bool,
}

/// The result of examining a database.
#[derive(Drop)]
pub enum Finding {
    /// The tables aren't the tables of any schema version (refusal 81). `difference` is the first
    /// difference from the nearest version.
    NotOurs {
        difference: Difference,
    },
    /// The tables are the tables of a schema version, but a row has a value that no row of its
    /// table can have (refusal 82).
    Unreadable,
    /// All rows were read.
    Read {
        rows: ExaminedRows,
        /// The first audit rule that the rows break (refusal 82), or `None` if they are the rows of
        /// sound contents.
        failing: Option<Rule>,
    },
}

fn are_both(is_exact: bool, apart: bool) -> bool
    ensures { IsTrue result ↔ (IsTrue is_exact × IsTrue apart) }
{
    is_exact && apart
}

// Sorts and audits `held`. No audit rule depends on the request bytes or the body of a reply. An
// error is never a disk error.
fn judged(alloc: Global, found: VersionMatch, mut held: HeldRows) -> Result<Finding, Error>
    ensures value { IfOk result (IsDamageOf found held) }
    ensures whole { IfOk result IsWhole }
    ensures cause { IfErr result (λ e. is_disk_error e ≡ false) }
{
    let failing = first_failing(alloc, &mut held.tables)?;
    let rows = ExaminedRows {
        version: found.version,
        tables: held.tables,
        as_made: are_both(found.is_exact, held.apart),
    };
    Ok(Finding::Read { rows, failing })
}

/// Returns what a database is: not ours, and how its tables differ; ours with an unreadable row; or
/// ours with its version, its rows and the first audit rule that they break. The tables and rows
/// can be in any order, and the tables can have additional indexes that aren't unique. The database
/// isn't changed, even by a crash.
///
/// Each table is read once, without the request bytes and bodies of replies. Rows represent sound
/// contents, and break an audit rule, if and only if they do so without these bytes
/// (`proofs/Unread.antt`).
///
/// # Errors
///
/// Returns the error of SQLite if a read or an allocation fails. Only tests show that there is a
/// finding if nothing fails.
pub fn examine<S: Alter>(alloc: Global, conn: &mut Connection<S>) -> Result<Finding, Error>
    requires { conn.old.in_transaction ≡ false }
    ensures value { HasCleanDisk (state S.Store conn.new)
        → IfOk result (IsFinding (state S.Store conn.old).now) }
    ensures whole { IfOk result IsWhole }
    ensures looks { LooksWithCause S.Store conn.old conn.new result }
{
    let found = match standing_of(alloc, conn)? {
        SchemaMatch::Ours { found } => found,
        SchemaMatch::NotOurs { difference } => return Ok(Finding::NotOurs { difference }),
    };
    let Some(held) = read_for_audit(alloc, conn, found.version)? else {
        return Ok(Finding::Unreadable);
    };
    judged(alloc, found, held)
}
