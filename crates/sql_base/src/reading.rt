//! Reads rows in a transaction that is rolled back.
ghost use Rattle.std.specs.Prelude.{◌≡◌, ◌<◌, ◌^◌, false, true, pos, IfErr, IfOk};
ghost use Rattle.sqlite.specs.Held.{state};
ghost use Rattle.sqlite.specs.State.{HasCleanDisk, Shown, Survives};
ghost use Rattle.sqlite.specs.Value.{owned};
ghost use Rattle.sqlite.specs.Values.{bound};
ghost use Rattle.sqlite.specs.declared.types.Value.TheVariants.{Int};
ghost use Rattle.sql_base.specs.Causes.{HadCause};
ghost use Rattle.sql_base.specs.Ends.{IsKept};

use crate::laws;
use sqlite::types::ValueRef;
use sqlite::{Alter, Connection, Error, Row};

/// Returns `n` as a parameter of a statement. Integers in SQL are less than 2^63.
pub fn int(n: u64) -> ValueRef<'static>
    requires { n < 2 ^ 63 }
    ensures { owned result ≡ Int (pos n) }
{
    ValueRef::Int(n as i64)
}

/// Returns the rows of a query. The query runs in a transaction that is dropped without a commit,
/// so nothing is committed, regardless of the text of the query.
pub fn rows_of<S: Alter>(
    conn: &mut Connection<S>,
    sql: &str,
    params: &[ValueRef<'_>],
) -> Result<Vec<Row>, Error>
    requires { conn.old.in_transaction ≡ false }
    ensures shown { HasCleanDisk (state S.Store conn.new) → IfOk result
        (λ rows. (mid : _) × Shown sql.now (bound params.now)
        (state S.Store (record conn.old { in_transaction = true })) (state S.Store mid)
        rows.items) }
    ensures kept { HasCleanDisk (state S.Store conn.new)
        → IsKept (state S.Store conn.old) (state S.Store conn.new) }
    ensures idle { conn.new.in_transaction ≡ false }
    ensures survives { Survives (state S.Store conn.old) (state S.Store conn.new) (λ _. ⊥) }
    ensures cause { HasCleanDisk (state S.Store conn.new) → IfErr result
        (HadCause S.Store (state S.Store conn.old) (state S.Store conn.new)) }
{
    laws::is_committed(conn);
    let mut tx = conn.transaction();
    tx.query_all(sql, params)
}
