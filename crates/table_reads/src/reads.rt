//! Reads a whole table, regardless of the order of its rows and its tree number.
ghost use Rattle.std.specs.Prelude.{◌≡◌, ℕ, false, List, IfOk, IsTrue};
ghost use Rattle.sqlite.specs.Effect.{IsDatabase};
ghost use Rattle.sqlite.specs.Held.{state};
ghost use Rattle.sqlite.specs.State.{HasCleanDisk};
ghost use Rattle.sqlite.specs.Term.{Term};
ghost use Rattle.sql_base.specs.Unchanged.{LooksWithCause};
ghost use Rattle.table_reads.specs.Converted.{ReadsConverted};
ghost use Rattle.table_reads.specs.Reading.{ReadsTable};
ghost use Rattle.table_reads.specs.Whole.{AreShown, Asks, with_rowid};

use crate::conversion::{Conversion, all_in};
use crate::rowids::{are_rising, sort_rowids};
use crate::stored::{Stored, WholeRow};
use crate::streaming::streamed;
use sql_base::{laws, rows_of};
use sqlite::{Alter, Connection, Error, Row};
use std::alloc::Global;

/// The rows of a table.
#[derive(Drop)]
pub struct TableRows<T> {
    pub rows: Vec<T>,
    /// Whether all rowids are different.
    pub apart: bool,
}

// Returns the rows of a query for rowids and other columns, sorted by rowid, and whether the rowids
// are different. They are different if and only if they ascend after the sort.
pub(crate) fn shown_rows<S: Alter>(
    conn: &mut Connection<S>,
    sql: &str,
) -> Result<TableRows<Row>, Error>
    requires { conn.old.in_transaction ≡ false }
    ensures value { HasCleanDisk (state S.Store conn.new) → IfOk result
        (λ shown. IsTrue (state S.Store conn.old).is_open
        × IsDatabase (state S.Store conn.old).now × ((tree : ℕ) (columns : List Term)
        → Asks (state S.Store conn.old).now.schema sql.now tree (with_rowid columns)
        → AreShown (with_rowid columns) ((state S.Store conn.old).now.trees tree)
        shown.rows.items shown.apart)) }
    ensures looks { LooksWithCause S.Store conn.old conn.new result }
{
    laws::is_live(conn);
    let mut rows = rows_of(conn, sql, &[])?;
    sort_rowids(&mut rows)?;
    let apart = are_rising(rows.as_slice());
    Ok(TableRows { rows, apart })
}

// Returns the values of all rows of a query, or `None` if a row doesn't have the shape. All rows
// are in memory before the first one is converted.
fn collected<X: Drop, C: Conversion<X>, S: Alter>(
    conn: &mut Connection<S>,
    sql: &str,
) -> Result<Option<TableRows<X>>, Error>
    requires { conn.old.in_transaction ≡ false }
    ensures value { HasCleanDisk (state S.Store conn.new) → IfOk result
        (ReadsConverted C.is_row C.gives sql.now (state S.Store conn.old)) }
    ensures looks { LooksWithCause S.Store conn.old conn.new result }
{
    let shown = shown_rows(conn, sql)?;
    let alloc = *shown.rows.allocator();
    let Some(rows) = all_in::<X, C>(alloc, shown.rows)? else {
        return Ok(None);
    };
    Ok(Some(TableRows {
        rows,
        apart: shown.apart,
    }))
}

// Returns the values of all rows of a query, or `None` if a row doesn't have the shape. If the
// rowids ascend, as they usually do, each row is converted before the next one is read.
pub(crate) fn converted<X: Drop, C: Conversion<X>, S: Alter>(
    alloc: Global,
    conn: &mut Connection<S>,
    sql: &str,
) -> Result<Option<TableRows<X>>, Error>
    requires { conn.old.in_transaction ≡ false }
    ensures value { HasCleanDisk (state S.Store conn.new) → IfOk result
        (ReadsConverted C.is_row C.gives sql.now (state S.Store conn.old)) }
    ensures looks { LooksWithCause S.Store conn.old conn.new result }
{
    if let Some(rows) = streamed::<X, C, S>(alloc, conn, sql)? {
        return Ok(Some(TableRows { rows, apart: true }));
    }
    collected::<X, C, S>(conn, sql)
}

/// Returns all rows of the table that the query `sql` reads, in any order, and whether their rowids
/// are different. Returns `None` if a row doesn't have the shape of its table. The database isn't
/// changed, even by a crash.
pub fn whole<T: Stored, S: Alter>(
    alloc: Global,
    conn: &mut Connection<S>,
    sql: &str,
) -> Result<Option<TableRows<T>>, Error>
    requires { conn.old.in_transaction ≡ false }
    ensures value { HasCleanDisk (state S.Store conn.new) → IfOk result
        (λ found. IsTrue (state S.Store conn.old).is_open
        × ReadsTable T.encode T.fits T.by_rowid sql.now (state S.Store conn.old).now found) }
    ensures looks { LooksWithCause S.Store conn.old conn.new result }
{
    converted::<T, WholeRow, S>(alloc, conn, sql)
}

/// Reads the tables of the queries `first` and `second`, each as [`whole`] does.
pub(crate) fn both<T: Stored, U: Stored, S: Alter>(
    alloc: Global,
    conn: &mut Connection<S>,
    first: &str,
    second: &str,
) -> Result<(Option<TableRows<T>>, Option<TableRows<U>>), Error>
    requires { conn.old.in_transaction ≡ false }
    ensures value { HasCleanDisk (state S.Store conn.new) → IfOk result
        (λ found. IsTrue (state S.Store conn.old).is_open
        × ReadsTable T.encode T.fits T.by_rowid first.now (state S.Store conn.old).now found.0
        × ReadsTable U.encode U.fits U.by_rowid second.now (state S.Store conn.old).now found.1) }
    ensures looks { LooksWithCause S.Store conn.old conn.new result }
{
    let one = whole(alloc, conn, first)?;
    let other = whole(alloc, conn, second)?;
    Ok((one, other))
}
