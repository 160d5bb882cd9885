//! Reads all tables, one after the other.
ghost use Rattle.std.specs.Prelude.{◌≡◌, ◌&&◌, false, IfOk, MatchOption};
ghost use Rattle.sqlite.specs.Held.{state};
ghost use Rattle.sqlite.specs.State.{HasCleanDisk};
ghost use Rattle.sql_base.specs.Unchanged.{LooksWithCause};
ghost use Rattle.table_reads.specs.Reading.{HasForAudit, HasGroupings, HasMarks, HasMost};
ghost use Rattle.table_reads.specs.Reading.{HoldsNoneOf, Reads, held_of};

use crate::reads::{TableRows, both, whole};
use crate::replies::brief_replies;
use sql_tables::Version;
use sqlite::{Alter, Connection, Error};
use std::alloc::Global;
use table_rows::{
    StoredBatch, StoredBlank, StoredGrouping, StoredLot, StoredMark, StoredProduct, StoredRecord,
    StoredRemake, StoredSession, StoredWord, Tables,
};

/// The rows of all tables except `version`.
#[derive(Drop)]
pub struct HeldRows {
    pub tables: Tables,
    /// Whether all rowids in each table are different.
    pub apart: bool,
}

// The rows of each table except `reply`. The rows are `None` if a row doesn't have the shape of its
// table.
#[derive(Drop)]
struct MostRows {
    products: Option<TableRows<StoredProduct>>,
    lots: Option<TableRows<StoredLot>>,
    batches: Option<TableRows<StoredBatch>>,
    records: Option<TableRows<StoredRecord>>,
    groupings: Option<TableRows<StoredGrouping>>,
    sessions: Option<TableRows<StoredSession>>,
    words: Option<TableRows<StoredWord>>,
    blanks: Option<TableRows<StoredBlank>>,
    remakes: Option<TableRows<StoredRemake>>,
    marks: Option<TableRows<StoredMark>>,
}

// Returns the rows of a table, and sets `apart` to `false` if their rowids aren't all different.
fn rows_beside<T: Drop>(table: TableRows<T>, apart: &mut bool) -> Vec<T>
    ensures rows { result ≡ table.rows }
    ensures apart { apart.new ≡ apart.old && table.apart }
{
    *apart = *apart && table.apart;
    table.rows
}

// Returns the rows of all tables except `reply`, if every table was read.
fn gathered(alloc: Global, found: MostRows) -> Option<HeldRows>
    ensures { result ≡ held_of found }
{
    let mut apart = true;
    let tables = Tables {
        products: rows_beside(found.products?, &mut apart),
        lots: rows_beside(found.lots?, &mut apart),
        batches: rows_beside(found.batches?, &mut apart),
        records: rows_beside(found.records?, &mut apart),
        groupings: rows_beside(found.groupings?, &mut apart),
        sessions: rows_beside(found.sessions?, &mut apart),
        words: rows_beside(found.words?, &mut apart),
        blanks: rows_beside(found.blanks?, &mut apart),
        remakes: rows_beside(found.remakes?, &mut apart),
        replies: Vec::new(alloc),
        marks: rows_beside(found.marks?, &mut apart),
    };
    Some(HeldRows { tables, apart })
}

// Reads the groupings. Version 3 has its own table for them.
fn groupings<S: Alter>(
    alloc: Global,
    conn: &mut Connection<S>,
    version: Version,
) -> Result<Option<TableRows<StoredGrouping>>, Error>
    requires { conn.old.in_transaction ≡ false }
    ensures value { HasCleanDisk (state S.Store conn.new) → IfOk result
        (Reads (HoldsNoneOf version) (HasGroupings version) (state S.Store conn.old)) }
    ensures looks { LooksWithCause S.Store conn.old conn.new result }
{
    match version {
        Version::One | Version::Two => whole(alloc, conn, "SELECT rowid, * FROM grouping"),
        Version::Three => whole(alloc, conn, "SELECT rowid, * FROM grouping2"),
    }
}

// Reads the release marks. Version 1 has no release marks.
fn marks<S: Alter>(
    alloc: Global,
    conn: &mut Connection<S>,
    version: Version,
) -> Result<Option<TableRows<StoredMark>>, Error>
    requires { conn.old.in_transaction ≡ false }
    ensures value { HasCleanDisk (state S.Store conn.new) → IfOk result (λ found.
        MatchOption found (HoldsNoneOf version (state S.Store conn.old).now)
        (HasMarks version (state S.Store conn.old).now)) }
    ensures looks { LooksWithCause S.Store conn.old conn.new result }
{
    match version {
        Version::One => Ok(Some(TableRows {
            rows: Vec::new(alloc),
            apart: true,
        })),
        Version::Two | Version::Three => whole(alloc, conn, "SELECT rowid, * FROM mark"),
    }
}

// Reads the rows of all tables except `version` and `reply`. The largest tables are read early,
// because a vector can need twice its memory while it grows.
fn read_most<S: Alter>(
    alloc: Global,
    conn: &mut Connection<S>,
    version: Version,
) -> Result<Option<HeldRows>, Error>
    requires { conn.old.in_transaction ≡ false }
    ensures value { HasCleanDisk (state S.Store conn.new) → IfOk result
        (Reads (HoldsNoneOf version) (HasMost version) (state S.Store conn.old)) }
    ensures looks { LooksWithCause S.Store conn.old conn.new result }
{
    let marks = marks(alloc, conn, version)?;
    let (words, sessions) = both(
        alloc,
        conn,
        "SELECT rowid, * FROM word",
        "SELECT * FROM session",
    )?;
    let (blanks, records) = both(
        alloc,
        conn,
        "SELECT * FROM blank",
        "SELECT rowid, * FROM record",
    )?;
    let groupings = groupings(alloc, conn, version)?;
    let (products, lots) = both(
        alloc,
        conn,
        "SELECT rowid, * FROM product",
        "SELECT rowid, * FROM lot",
    )?;
    let (batches, remakes) = both(
        alloc,
        conn,
        "SELECT * FROM batch",
        "SELECT rowid, * FROM remake",
    )?;
    let found = MostRows {
        products,
        lots,
        batches,
        records,
        groupings,
        sessions,
        words,
        blanks,
        remakes,
        marks,
    };
    Ok(gathered(alloc, found))
}

/// Reads the rows that the audit needs from the tables of `version`: all rows except the row of
/// `version`, in any order, with replies without their request bytes and bodies, and whether all
/// rowids in each table are different.
///
/// Returns `None` if a row doesn't have the shape of its table, so that the database can't hold
/// sound contents. The database isn't changed, even by a crash.
pub fn read_for_audit<S: Alter>(
    alloc: Global,
    conn: &mut Connection<S>,
    version: Version,
) -> Result<Option<HeldRows>, Error>
    requires { conn.old.in_transaction ≡ false }
    ensures value { HasCleanDisk (state S.Store conn.new) → IfOk result
        (Reads (HoldsNoneOf version) (HasForAudit version) (state S.Store conn.old)) }
    ensures looks { LooksWithCause S.Store conn.old conn.new result }
{
    let Some(mut held) = read_most(alloc, conn, version)? else {
        return Ok(None);
    };
    let Some(replies) = brief_replies(alloc, conn)? else {
        return Ok(None);
    };
    held.tables.replies = rows_beside(replies, &mut held.apart);
    Ok(Some(held))
}
