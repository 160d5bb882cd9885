//! The engine of `persod drill`: runs a drill over the tables of a database in memory.
ghost use Rattle.std.specs.Prelude.{IfErr, IfOk};
ghost use Rattle.sqlite.specs.Steps.{over_memory};
ghost use Rattle.job_facts.specs.Contents.{no_contents};
ghost use Rattle.job_facts.specs.Store.{IsHonest};
ghost use Rattle.schema.specs.Stores.{stands_for};
ghost use Rattle.drill.specs.Ends.{IsUnopened};
ghost use Rattle.over_tables.specs.Drills.{DrillEnds};

use drill::{DrillStop, drill_over, unopened};
use schema::{OpenFault, SqlStore};
use sqlite::{Connection, MemStore};
use std::alloc::Global;
use std::io::{Read, Write};

/// Runs the lines of a script as `drill_over` does, with a store in memory that is empty at first.
///
/// # Errors
///
/// Returns the errors of `drill_over`. If the store can't be created, nothing is read or written,
/// and the error is `Memory` or `Storage`.
pub fn drill_engine<R: Read, W: Write>(
    alloc: Global,
    reader: &mut R,
    writer: &mut W,
) -> Result<(), DrillStop>
    ensures { DrillEnds (R.remaining reader.old) (W.contents writer.old) (W.contents writer.new)
        result }
{
    drill_over(alloc, begun(alloc)?, reader, writer)
}

// Creates a store without contents.
fn begun(alloc: Global) -> Result<SqlStore<MemStore>, DrillStop>
    ensures empty { IfOk result (λ store. IsHonest (stands_for over_memory store)
        → (stands_for over_memory store).holds no_contents) }
    ensures refused { IfErr result IsUnopened }
{
    let conn = Connection::open_in_memory(alloc)?;
    match SqlStore::create(alloc, conn) {
        Ok(store) => Ok(store),
        Err((_, OpenFault::Store { fault })) => Err(unopened(fault)),
        // The database is empty.
        Err((_, _)) => unreachable!(),
    }
}
