//! Reads the rows of a query one at a time, and converts each row before it reads the next one.
ghost use Rattle.std.specs.Prelude.{◌≡◌, ◌↔◌, ◌∷◌, ◌++◌, false, true, [], ℕ, IfErr, IfOk, IfSome};
ghost use Rattle.std.specs.Prelude.{IsTrue, List, MatchResult};
ghost use Rattle.sqlite.specs.Effect.{IsDatabase};
ghost use Rattle.sqlite.specs.Held.{state};
ghost use Rattle.sqlite.specs.Order.{Row as RowValue};
ghost use Rattle.sqlite.specs.State.{HasCleanDisk, Survives, is_disk_error};
ghost use Rattle.sqlite.specs.Term.{Term};
ghost use Rattle.sqlite_ast.specs.declared.Select.{Select as Query};
ghost use Rattle.sqlite_ast.specs.declared.Statement.TheVariants.{Select};
ghost use Rattle.sql_base.specs.Causes.{HadCause};
ghost use Rattle.sql_base.specs.Ends.{IsKept};
ghost use Rattle.sql_base.specs.Unchanged.{LooksWithCause};
ghost use Rattle.table_reads.specs.Converted.{AreTyped};
ghost use Rattle.table_reads.specs.Streaming.{IsAbove, HasNoReturning, StandSoFar};
ghost use Rattle.table_reads.specs.Whole.{Asks, with_rowid};

use crate::conversion::Conversion;
use crate::rowids::rowid_in;
use sql_base::laws;
use sqlite::{Alter, Connection, Error, Row};
use sqlite_ast::Statement;
use sqlite_syntax::parse;
use std::alloc::Global;

fn is_select(statement: &Statement) -> bool
    ensures { IsTrue result → (query : Query) × (statement.now ≡ Select query) }
{
    match statement {
        Statement::Select(_) => true,
        _ => false,
    }
}

// Returns `true` only if `sql` is a query, so that it never writes.
fn is_query(alloc: Global, sql: &str) -> bool
    ensures { IsTrue result → HasNoReturning sql.now }
{
    match parse(alloc, sql.as_bytes()) {
        Ok(parsed) => is_select(&parsed.statement),
        Err(_) => false,
    }
}

// The rows that were read so far, whose rowids ascend.
#[derive(Drop)]
struct SoFar<X> {
    values: Vec<X>,
    last_rowid: Option<i64>,
}

fn is_above(rowid: i64, last: Option<i64>) -> bool
    ensures { IsTrue result ↔ IsAbove last rowid }
{
    match last {
        Some(last) => last < rowid,
        None => true,
    }
}

// Converts one more row. Returns `false` if it doesn't have the shape, or its rowid isn't an
// integer higher than the one before it.
fn take<X: Drop, C: Conversion<X>>(
    alloc: Global,
    so_far: &mut SoFar<X>,
    row: &Row,
) -> Result<bool, Error>
    ensures { MatchResult result (λ taken. IsTrue taken → (rows : List RowValue)
        → StandSoFar C.gives rows so_far.old.values.items so_far.old.last_rowid
        → StandSoFar C.gives (rows ++ row.now ∷ []) so_far.new.values.items
        so_far.new.last_rowid) (λ e. is_disk_error e ≡ false) }
{
    let Some(rowid) = rowid_in(row) else {
        return Ok(false);
    };
    if !is_above(rowid, so_far.last_rowid) {
        return Ok(false);
    }
    let Some(x) = C::convert(alloc, row)? else {
        return Ok(false);
    };
    so_far.values.push(x)?;
    so_far.last_rowid = Some(rowid);
    Ok(true)
}

// Returns the values of all rows of the query `sql`, or `None` if a row doesn't have the shape or
// the rowids don't ascend.
fn rising<X: Drop, C: Conversion<X>, S: Alter>(
    alloc: Global,
    conn: &mut Connection<S>,
    sql: &str,
) -> Result<Option<Vec<X>>, Error>
    requires idle { conn.old.in_transaction ≡ false }
    requires query { HasNoReturning sql.now }
    ensures value { HasCleanDisk (state S.Store conn.new) → IfOk result
        (λ found. IfSome found (λ all. IsTrue (state S.Store conn.old).is_open
        × IsDatabase (state S.Store conn.old).now × ((tree : ℕ) (columns : List Term)
        → Asks (state S.Store conn.old).now.schema sql.now tree (with_rowid columns)
        → AreTyped C.gives (with_rowid columns) ((state S.Store conn.old).now.trees tree)
        all.items true))) }
    ensures kept { HasCleanDisk (state S.Store conn.new)
        → IsKept (state S.Store conn.old) (state S.Store conn.new) }
    ensures idle { conn.new.in_transaction ≡ false }
    ensures survives { Survives (state S.Store conn.old) (state S.Store conn.new) (λ _. ⊥) }
    ensures cause { HasCleanDisk (state S.Store conn.new) → IfErr result
        (HadCause S.Store (state S.Store conn.old) (state S.Store conn.new)) }
{
    laws::is_committed(conn);
    laws::is_live(conn);
    let mut so_far = SoFar {
        values: Vec::new(alloc),
        last_rowid: None,
    };
    let mut rows = conn.query(sql, &[])?;
    'rows: for _ in 0..u64::MAX {
        let Some(row) = rows.next()? else {
            return Ok(Some(so_far.values));
        };
        if !take::<X, C>(alloc, &mut so_far, row)? {
            return Ok(None);
        }
    }
    Ok(None)
}

// Returns the values of all rows of the query `sql`, which are converted as they are read. Returns
// `None` if `sql` isn't a query, a row doesn't have the shape, or the rowids don't ascend.
pub(crate) fn streamed<X: Drop, C: Conversion<X>, S: Alter>(
    alloc: Global,
    conn: &mut Connection<S>,
    sql: &str,
) -> Result<Option<Vec<X>>, Error>
    requires { conn.old.in_transaction ≡ false }
    ensures value { HasCleanDisk (state S.Store conn.new) → IfOk result
        (λ found. IfSome found (λ all. IsTrue (state S.Store conn.old).is_open
        × IsDatabase (state S.Store conn.old).now × ((tree : ℕ) (columns : List Term)
        → Asks (state S.Store conn.old).now.schema sql.now tree (with_rowid columns)
        → AreTyped C.gives (with_rowid columns) ((state S.Store conn.old).now.trees tree)
        all.items true))) }
    ensures looks { LooksWithCause S.Store conn.old conn.new result }
{
    if !is_query(alloc, sql) {
        return Ok(None);
    }
    rising::<X, C, S>(alloc, conn, sql)
}
