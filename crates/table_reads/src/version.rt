//! Reads the row of `version`.
ghost use Rattle.std.specs.Prelude.{◌≡◌, ◌↔◌, ℕ, [], ◌∷◌, false, true, IfOk};
ghost use Rattle.std.specs.Prelude.{IsPermutation, IsTrue};
ghost use Rattle.sqlite.specs.Held.{state};
ghost use Rattle.sqlite.specs.Order.{column};
ghost use Rattle.sqlite.specs.State.{HasCleanDisk};
ghost use Rattle.sql_base.specs.Unchanged.{LooksWithCause};
ghost use Rattle.sql_tables.specs.Finds.{Finds};
ghost use Rattle.sql_tables.specs.Ours.{AreThere};
ghost use Rattle.sql_tables.specs.Versions.{numbered_version_at, schema_of};
ghost use Rattle.sql_rows.specs.Encoding.{number};
ghost use Rattle.sql_rows.specs.Image.{given_rows};
ghost use Rattle.table_reads.specs.Holding.{SaysVersion, number_of};
ghost use Rattle.table_reads.specs.Version.{IsVersionAlone, IsVersionRow, numbered_row};

use crate::reads::shown_rows;
use crate::values::{is_number, number_at};
use sql_tables::Version;
use sqlite::{Alter, Connection, Error, Row};

fn is_exactly(row: &Row, at: usize, n: u64) -> bool
    ensures { IsTrue result ↔ (column row.now at ≡ number n) }
{
    is_number(row, at) && number_at(row, at) == n
}

#[tactic(auto, unfolding(crate::specs::Version::IsVersionRow))]
fn is_version_row(row: &Row, version: u64) -> bool
    ensures { IsTrue result ↔ IsVersionRow version row.now }
{
    row.column_count() == 2 && is_exactly(row, 0, 1) && is_exactly(row, 1, version)
}

fn is_version_alone(rows: &[Row], version: u64) -> bool
    ensures { IsTrue result ↔ IsVersionAlone version rows.now }
{
    match rows {
        [row] => is_version_row(row, version),
        _ => false,
    }
}

// Returns `true` if `version` has exactly one row, with the number `version`.
fn says_version<S: Alter>(conn: &mut Connection<S>, version: u64) -> Result<bool, Error>
    requires { conn.old.in_transaction ≡ false }
    ensures value { HasCleanDisk (state S.Store conn.new) → IfOk result
        (λ says. IsTrue (state S.Store conn.old).is_open × ((n tree : ℕ)
        → Finds (state S.Store conn.old).now.schema (numbered_version_at n tree)
        → IsTrue says ↔ IsPermutation (numbered_row version ∷ [])
        (given_rows true ((state S.Store conn.old).now.trees tree)))) }
    ensures looks { LooksWithCause S.Store conn.old conn.new result }
{
    let shown = shown_rows(conn, "SELECT * FROM version")?;
    Ok(is_version_alone(shown.rows.as_slice(), version))
}

fn number(version: Version) -> u64
    ensures { result ≡ number_of version }
{
    match version {
        Version::One => 1,
        Version::Two => 2,
        Version::Three => 3,
    }
}

/// Returns `true` if the table `version` has exactly one row, with the number of `version`. The
/// result is meaningful only if the database has the tables of that version. The database isn't
/// changed, even by a crash.
pub fn says<S: Alter>(conn: &mut Connection<S>, version: Version) -> Result<bool, Error>
    requires { conn.old.in_transaction ≡ false }
    ensures value { HasCleanDisk (state S.Store conn.new) → IfOk result
        (λ says. IsTrue (state S.Store conn.old).is_open
        × (AreThere (state S.Store conn.old).now.schema (schema_of version).tables
        → IsTrue says ↔ SaysVersion version (state S.Store conn.old).now)) }
    ensures looks { LooksWithCause S.Store conn.old conn.new result }
{
    says_version(conn, number(version))
}
