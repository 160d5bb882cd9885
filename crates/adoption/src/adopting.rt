//! Opens or refuses a database.
ghost use Rattle.std.specs.Prelude.{◌≡◌, ◌≢◌, false, IfErr, OnErr, OnOk};
ghost use Rattle.sqlite.specs.Held.{state};
ghost use Rattle.sqlite.specs.State.{HasCleanDisk, Survives};
ghost use Rattle.job_facts.specs.declared.store.StoreFault.{StoreFault};
ghost use Rattle.sql_base.specs.Ends.{IsKept, IsLeft};
ghost use Rattle.sql_tables.specs.declared.versions.Version.{Version};
ghost use Rattle.table_reads.specs.Holding.{HoldsSoundRows, IsOfVersion};
ghost use Rattle.examination.specs.Causes.{SaysHow, SaysWhat};
ghost use Rattle.examination.specs.declared.damage.Damage.{Damage as OfDamage};
ghost use Rattle.examination.specs.declared.difference.Difference.{Difference};
ghost use Rattle.adoption.specs.Adopts.{Adopts};
ghost use Rattle.adoption.specs.Causes.{IsCaused};
ghost use Rattle.adoption.specs.EndsCommitted.{EndsCommitted};
ghost use Rattle.adoption.specs.Taken.{rows_taken};
ghost use Rattle.adoption.specs.Unwritten.{LeavesOurs};

use crate::faults::OpenFault;
use crate::settling::settle;
use examination::{Damage, ExaminedRows, Finding, examine};
use sqlite::{Alter, Connection, Error};
use std::alloc::Global;

// Returns the rows of sound contents, or the reason to refuse the database, with its cause. Each
// refusal belongs to one kind of finding, and a fault to an error of the examination.
fn rows_taken(examined: Result<Finding, Error>) -> Result<ExaminedRows, OpenFault>
    ensures { result ≡ rows_taken examined }
{
    match examined {
        Ok(Finding::NotOurs { difference }) => Err(OpenFault::NotOurs { difference }),
        Ok(Finding::Unreadable) => {
            let damage = Damage::UnreadableRow;
            Err(OpenFault::Damaged { damage })
        }
        Ok(Finding::Read { rows, failing }) => match failing {
            None => Ok(rows),
            Some(rule) => {
                let damage = Damage::Broken { rule };
                Err(OpenFault::Damaged { damage })
            }
        },
        Err(error) => Err(OpenFault::from(error)),
    }
}

/// Opens a database that holds the rows of sound contents in the tables of any schema version.
/// Afterwards the rows are in the tables of the current schema. If the tables are already exactly
/// as the store creates them, no tree is changed. After a crash the database is as it could be
/// before the call, or has the same contents in the tables of the current schema.
///
/// # Errors
///
/// After an error the database isn't changed.
///
/// - `NotOurs` if the tables aren't the tables of any schema version (refusal 81). It has the first
///   difference from the nearest version.
/// - `Damaged` if the rows aren't the rows of sound contents (refusal 82). It has the first audit
///   rule that they break, or says that a row can't be read.
/// - `Store` if SQLite reports an error
pub fn adopt<S: Alter>(alloc: Global, conn: &mut Connection<S>) -> Result<(), OpenFault>
    requires { conn.old.in_transaction ≡ false }
    ensures ok { HasCleanDisk (state S.Store conn.new) → OnOk result
        (EndsCommitted Adopts (state S.Store conn.old) (state S.Store conn.new)) }
    ensures not_ours { HasCleanDisk (state S.Store conn.new) → IfErr result
        (λ e. (difference : Difference) → e ≡ OpenFault.NotOurs difference
        → ((v : Version) → ¬ IsOfVersion v (state S.Store conn.old).now)
        × SaysHow (state S.Store conn.old).now difference) }
    ensures damaged { HasCleanDisk (state S.Store conn.new) → IfErr result
        (λ e. (damage : OfDamage) → e ≡ OpenFault.Damaged damage
        → ((v : Version) × IsOfVersion v (state S.Store conn.old).now)
        × ((v : Version) → ¬ HoldsSoundRows v (state S.Store conn.old).now)
        × SaysWhat (state S.Store conn.old).now damage) }
    ensures existing { IfErr result (λ e. e ≢ OpenFault.NotEmpty) }
    ensures kept { HasCleanDisk (state S.Store conn.new)
        → OnErr result (IsKept (state S.Store conn.old) (state S.Store conn.new)) }
    ensures unchanged { LeavesOurs (state S.Store conn.old) (state S.Store conn.new) }
    ensures idle { conn.new.in_transaction ≡ false }
    ensures crash { Survives (state S.Store conn.old) (state S.Store conn.new)
        (IsLeft Adopts (state S.Store conn.old)) }
    ensures cause { HasCleanDisk (state S.Store conn.new) → IfErr result
        (λ e. (own : StoreFault) → e ≡ OpenFault.Store own
        → IsCaused S.Store (state S.Store conn.old) (state S.Store conn.new) own) }
{
    table_reads::laws::rows_are_held_in_any_order();
    let rows = rows_taken(examine(alloc, conn))?;
    Ok(settle(conn, rows)?)
}
