//! Creates tables and indexes.
ghost use Rattle.std.specs.Prelude.{◌≡◌, ◌↔◌, IsTrue};
ghost use Rattle.sqlite.specs.Held.{state};
ghost use Rattle.sqlite.specs.State.{HasCleanDisk, Survives};
ghost use Rattle.sql_base.specs.Causes.{ReportsCause};
ghost use Rattle.sql_base.specs.Columns.{no_schema};
ghost use Rattle.sql_base.specs.Ends.{Wrote};
ghost use Rattle.sql_base.specs.Making.{MakesIndex, MakesTable};

use sqlite::{Alter, Error, Transaction};
use sqlite_schema::schema::Schema;

/// Returns `true` if the schema has no table, no index and no view.
pub fn is_empty(schema: &Schema) -> bool
    ensures { IsTrue result ↔ (schema.now ≡ no_schema) }
{
    schema.tables.is_empty() && schema.indexes.is_empty() && schema.views.is_empty()
}

/// Creates the table or the index that `sql` defines, in the open transaction `tx`. A crash leaves
/// no trace of it.
pub fn make<S: Alter>(tx: &mut Transaction<'_, S>, sql: &str) -> Result<usize, Error>
    ensures same_reference { tx.new.conn.ghost_name ≡ tx.old.conn.ghost_name }
    ensures made { HasCleanDisk (state S.Store tx.new.conn.now)
        → Wrote (MakesTable sql.now) (state S.Store tx.old.conn.now)
        (state S.Store tx.new.conn.now) result }
    ensures indexed { HasCleanDisk (state S.Store tx.new.conn.now)
        → Wrote (MakesIndex sql.now) (state S.Store tx.old.conn.now)
        (state S.Store tx.new.conn.now) result }
    ensures survives { Survives (state S.Store tx.old.conn.now) (state S.Store tx.new.conn.now)
        (λ _. ⊥) }
    ensures cause { HasCleanDisk (state S.Store tx.new.conn.now)
        → ReportsCause (state S.Store tx.old.conn.now) (state S.Store tx.new.conn.now) result }
{
    tx.execute(sql, &[])
}
