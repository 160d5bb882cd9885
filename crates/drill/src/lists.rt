//! Runs a drill with a list store.
ghost use Rattle.drill.specs.Drills.{DrillEnds};

use crate::engine::drill_over;
use crate::stop::DrillStop;
use list_store::ListStore;
use std::alloc::Global;
use std::io::{Read, Write};

/// Runs the lines of a script as `drill_over` does, with a list store that is empty at first.
pub fn drill_over_lists<R: Read, W: Write>(
    alloc: Global,
    reader: &mut R,
    writer: &mut W,
) -> Result<(), DrillStop>
    ensures { DrillEnds (R.remaining reader.old) (W.contents writer.old) (W.contents writer.new)
        result }
{
    drill_over(alloc, ListStore::new(alloc), reader, writer)
}
