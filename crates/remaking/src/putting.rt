//! Inserts a row, or the rows of one or more tables, in an open transaction. A crash before its
//! commit leaves no trace of them.
ghost use Rattle.std.specs.Prelude.{◌<◌, ◌^◌, ⊤, IsTrue};
ghost use Rattle.sqlite.specs.Held.{state};
ghost use Rattle.sql_base.specs.Unchanged.{LeavesNoTraceWithCause};
ghost use Rattle.sql_rows.specs.Writes.{WritesRows};
ghost use Rattle.table_rows.specs.Tables.{Tables};
ghost use Rattle.sql_rows.specs.Image.{Moves};
ghost use Rattle.sql_rows.specs.Many.{WritesMany};
ghost use Rattle.remaking.specs.Rows.{with_each};

use sql_tables::{Runs, run_each};
use sqlite::{Alter, Error, Transaction};

/// The upper limit of integers in SQL, which are less than this.
const LIMIT: u64 = 1 << 63;

/// Returns `true` if all four numbers are integers of SQL.
pub(crate) fn fit(first: u64, second: u64, third: u64, fourth: u64) -> bool
    ensures first { IsTrue result → first < 2 ^ 63 }
    ensures second { IsTrue result → second < 2 ^ 63 }
    ensures third { IsTrue result → third < 2 ^ 63 }
    ensures fourth { IsTrue result → fourth < 2 ^ 63 }
    ensures all { first < 2 ^ 63 → second < 2 ^ 63 → third < 2 ^ 63 → fourth < 2 ^ 63
        → IsTrue result }
{
    first < LIMIT && second < LIMIT && third < LIMIT && fourth < LIMIT
}

/// A row that can be inserted into its table.
pub(crate) trait Put {
    ghost with_row: { Self → Tables → Tables };

    /// Inserts the row. Returns `InvalidQuery` if a number is 2^63 or higher.
    fn put<S: Alter>(&self, tx: &mut Transaction<'_, S>) -> Result<usize, Error>
        ensures wrote { WritesRows (with_row self.now) (state S.Store tx.old.conn.now)
            (state S.Store tx.new.conn.now) result }
        ensures no_trace { LeavesNoTraceWithCause S.Store tx.old.conn tx.new.conn result };
}

// The statements that insert rows.
struct Putting;

impl<T: Put> Runs<T> for Putting {
    ghost makes = { λ row. Moves (T.with_row row) };

    ghost explains = { ⊤ };

    fn run<S: Alter>(tx: &mut Transaction<'_, S>, row: &T) -> Result<usize, Error> {
        row.put(tx)
    }
}

/// Inserts rows, one after the other, up to the first error.
pub(crate) fn put_all<T: Put, S: Alter>(
    tx: &mut Transaction<'_, S>,
    rows: &[T],
) -> Result<(), Error>
    ensures wrote { WritesMany (with_each T.with_row rows.now) (state S.Store tx.old.conn.now)
        (state S.Store tx.new.conn.now) result }
    ensures no_trace { LeavesNoTraceWithCause S.Store tx.old.conn tx.new.conn result }
{
    run_each::<Putting, T, S>(tx, rows)
}

/// Rows that can be inserted into their tables.
pub(crate) trait PutRows {
    ghost with_rows: { Self → Tables → Tables };

    /// Inserts the rows, one after the other, up to the first error.
    fn put_rows<S: Alter>(&self, tx: &mut Transaction<'_, S>) -> Result<(), Error>
        ensures wrote { WritesMany (with_rows self.now) (state S.Store tx.old.conn.now)
            (state S.Store tx.new.conn.now) result }
        ensures no_trace { LeavesNoTraceWithCause S.Store tx.old.conn tx.new.conn result };
}

impl<'a, T: Put> PutRows for &'a [T] {
    ghost with_rows = { λ rows. with_each T.with_row rows.now };

    fn put_rows<S: Alter>(&self, tx: &mut Transaction<'_, S>) -> Result<(), Error> {
        put_all(tx, self)
    }
}

// The rows of the first part are inserted before those of the second, which can refer to them.
impl<T: PutRows, U: PutRows> PutRows for (T, U) {
    ghost with_rows = { λ both t. U.with_rows both.1 (T.with_rows both.0 t) };

    fn put_rows<S: Alter>(&self, tx: &mut Transaction<'_, S>) -> Result<(), Error> {
        self.0.put_rows(tx)?;
        self.1.put_rows(tx)
    }
}
