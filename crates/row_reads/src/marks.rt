//! The statement that reads the release mark of a client.
ghost use Rattle.std.specs.Prelude.{◌≡◌, ◌<◌, ◌^◌, false, map, IfOk};
ghost use Rattle.sqlite.specs.Held.{state};
ghost use Rattle.job_facts.specs.Contents.{Mark, mark_of};
ghost use Rattle.job_facts.specs.Sound.{AreNamedOnce};
ghost use Rattle.row_reads.specs.Reads.{FindsRows};

use crate::values::first_number;
use sql_base::rows_of;
use sqlite::types::ValueRef;
use sqlite::{Alter, Connection, Error};
use store_data::Name;

/// Returns the release mark of `client`, or 0 if it has released nothing.
pub fn mark<S: Alter>(conn: &mut Connection<S>, client: &Name) -> Result<u64, Error>
    requires { conn.old.in_transaction ≡ false }
    ensures finds { FindsRows (state S.Store conn.old) (state S.Store conn.new) result
        (λ t upto. AreNamedOnce (map (λ (m : Mark). m.client) t.marks)
        → upto ≡ mark_of t.marks client.now) }
    ensures ranged { IfOk result (λ upto. upto < 2 ^ 63) }
{
    let rows = rows_of(
        conn,
        "SELECT upto FROM mark WHERE client = ?1",
        &[ValueRef::Text(client.bytes())],
    )?;
    first_number(rows.as_slice())
}
