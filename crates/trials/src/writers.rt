//! A test of writers that accept one byte per call. A contract allows a function to write only a
//! prefix of a text and to report a failed write, even if no write failed.
use crate::again::{MayBeOutOfMemory, at_last};
use crate::batches::{FILE, PRINTED, product};
use crate::exchanges::{REPORT, name, stocked};
use crate::failing_writers::Limited;
use drill::{DrillStop, drill_over_lists};
use plan_print::plan_engine;
use reports::close_report;
use std::alloc::Global;
use std::io::Cursor;
use std::test::Fail;
use text_io::{RunStop, StreamFault};

const SCRIPT: &[u8] = b"office 1 {\"do\":\"reset\"}\n";

const LINE: &str = "200 {\"result\":\"reset\",\"session\":0}\n";

// Returns the output of `SCRIPT`, or the reason why its drill stopped. A reply of 503 counts as out
// of memory.
fn drilled(alloc: Global) -> Result<Limited, DrillStop> {
    let mut writer = Limited::new(512, 1);
    drill_over_lists(alloc, &mut Cursor::new(SCRIPT), &mut writer)?;
    if writer.taken().starts_with(b"503 ") {
        return Err(RunStop::Stream(StreamFault::Memory));
    }
    Ok(writer)
}

// Returns the plan of `FILE`.
fn planned(alloc: Global) -> Result<Limited, Fail> {
    let product = product(255, 0, false)?;
    let mut writer = Limited::new(512, 1);
    at_last!(plan_engine(alloc, &product, &mut Cursor::new(FILE), &mut writer))?;
    Ok(writer)
}

// Returns the report of the batch in a store that `stocked` returns.
fn reported(alloc: Global) -> Result<Limited, Fail> {
    let mut store = stocked(alloc)?;
    let batch = name("B1")?;
    let mut writer = Limited::new(512, 1);
    at_last!(close_report(alloc, &mut store, &batch, &mut writer))?;
    Ok(writer)
}

#[test]
fn plans_reports_and_drills_are_written_byte_by_byte(rt: HostRuntime) -> Result<(), Fail> {
    let alloc = rt.alloc();
    let drill = at_last!(drilled(alloc))?;
    for (writer, text) in [
        (planned(alloc)?, PRINTED),
        (reported(alloc)?, REPORT),
        (drill, LINE),
    ] {
        assert_eq!(rt; writer.taken(), text.as_bytes());
    }
    Ok(())
}
