//! The statement that looks up a charged blank.
ghost use Rattle.std.specs.Prelude.{◌≡◌, ◌<◌, ◌^◌, false};
ghost use Rattle.std.specs.List.{list_any};
ghost use Rattle.sqlite.specs.Held.{state};
ghost use Rattle.row_reads.specs.Reads.{FindsRows};
ghost use Rattle.table_rows.specs.Keys.{is_blank};

use crate::values::has_rows;
use sql_base::{int, rows_of};
use sqlite::{Alter, Connection, Error};

/// Returns `true` if the blank `serial` is charged.
pub fn is_charged<S: Alter>(conn: &mut Connection<S>, serial: u64) -> Result<bool, Error>
    requires idle { conn.old.in_transaction ≡ false }
    requires serial { serial < 2 ^ 63 }
    ensures { FindsRows (state S.Store conn.old) (state S.Store conn.new) result
        (λ t charged. charged ≡ list_any (is_blank serial) t.blanks) }
{
    let rows = rows_of(
        conn,
        "SELECT serial FROM blank WHERE serial = ?1",
        &[int(serial)],
    )?;
    Ok(has_rows(rows.as_slice()))
}
