//! Reads values from the rows of a query result.
ghost use Rattle.std.specs.Prelude.{◌≡◌, false, map, All, IfOk, IfSome};
ghost use Rattle.sqlite.specs.Held.{state};
ghost use Rattle.sqlite.specs.Values.{bound};
ghost use Rattle.row_reads.specs.Decoding.{IsFirst};
ghost use Rattle.row_reads.specs.Readable.{FailsForMemory};
ghost use Rattle.row_reads.specs.Reads.{Answers, Looks};

use sql_base::rows_of;
use sqlite::types::ValueRef;
use sqlite::{Alter, Connection, Error, Row};
use std::alloc::Global;

/// A value that can be read from a row of a query result.
pub(crate) trait Answered: Sized + Drop {
    ghost use Rattle.std.specs.Prelude.{◌≡◌, IfOk};
    ghost use Rattle.sqlite.specs.Order.{Row as RowValue};
    ghost use Rattle.row_reads.specs.Readable.{FailsForMemory};

    /// The value that a row represents.
    ghost value: { RowValue → Self };

    /// A property of every value that is read.
    ghost fits: { Self → Type 0 };

    /// The condition under which a row represents a value.
    ghost readable: { RowValue → Type 0 };

    /// Returns the value that `row` represents.
    ///
    /// # Errors
    ///
    /// - `SqliteFailure(OutOfMemory)`: an allocation fails.
    /// - Any other error: `row` doesn't represent a value of this type.
    fn read(row: &Row) -> Result<Self, Error>
        ensures value { IfOk result (λ it. it ≡ value row.now) }
        ensures ranged { IfOk result fits }
        ensures total { readable row.now → FailsForMemory result };
}

/// Returns the value of the first row, or `None` if there are no rows.
///
/// # Errors
///
/// Returns the error of `Answered::read`.
pub(crate) fn first<T: Answered>(rows: &[Row]) -> Result<Option<T>, Error>
    ensures value { IfOk result (λ found. IsFirst (map T.value rows.now) found) }
    ensures ranged { IfOk result (λ found. IfSome found T.fits) }
    ensures total { All T.readable rows.now → FailsForMemory result }
{
    match rows.first() {
        None => Ok(None),
        Some(row) => Ok(Some(T::read(row)?)),
    }
}

// Returns the values of all rows.
fn all<T: Answered>(alloc: Global, rows: &[Row]) -> Result<Vec<T>, Error>
    ensures value { IfOk result (λ all. all.items ≡ map T.value rows.now) }
    ensures ranged { IfOk result (λ all. All T.fits all.items) }
    ensures total { All T.readable rows.now → FailsForMemory result }
{
    let mut all = Vec::new(alloc);
    for answered in rows {
        all.push(T::read(answered)?)?;
    }
    Ok(all)
}

/// Executes the query `sql` with the parameters `params`. Returns the value of the first row, or
/// `None` if there are no rows.
///
/// # Errors
///
/// Returns the error of SQLite if the query fails, or the error of `Answered::read`.
pub(crate) fn one_of<T: Answered, S: Alter>(
    conn: &mut Connection<S>,
    sql: &str,
    params: &[ValueRef<'_>],
) -> Result<Option<T>, Error>
    requires { conn.old.in_transaction ≡ false }
    ensures answered { Answers S.Store conn.old conn.new sql.now (bound params.now) result
        (λ rows found. IsFirst (map T.value rows) found) }
    ensures ranged { IfOk result (λ found. IfSome found T.fits) }
    ensures looks { Looks (state S.Store conn.old) (state S.Store conn.new) }
{
    let rows = rows_of(conn, sql, params)?;
    first(rows.as_slice())
}

/// Executes the query `sql` with the parameters `params`. Returns the values of all rows.
///
/// # Errors
///
/// Returns the error of SQLite if the query fails, or the error of `Answered::read`.
pub(crate) fn all_of<T: Answered, S: Alter>(
    conn: &mut Connection<S>,
    sql: &str,
    params: &[ValueRef<'_>],
) -> Result<Vec<T>, Error>
    requires { conn.old.in_transaction ≡ false }
    ensures answered { Answers S.Store conn.old conn.new sql.now (bound params.now) result
        (λ rows all. all.items ≡ map T.value rows) }
    ensures ranged { IfOk result (λ all. All T.fits all.items) }
    ensures looks { Looks (state S.Store conn.old) (state S.Store conn.new) }
{
    let rows = rows_of(conn, sql, params)?;
    let alloc = *rows.allocator();
    all(alloc, rows.as_slice())
}
