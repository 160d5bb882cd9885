//! Plans the records of a batch file and prints their commands.
ghost use Rattle.std.specs.Prelude.{◌≡◌, ◌≤◌, ℕ, List, All, None, length, map, IfOk};
ghost use Rattle.std.specs.List.{flat_map};
ghost use Rattle.store_data.specs.RecordFaults.{record_fault};
ghost use Rattle.store_data.specs.Sequence.{AreRows, IsProduct};
ghost use Rattle.event_lines.specs.Notes.{NotesAll};
ghost use Rattle.text_io.specs.Inputs.{Agrees, most_input};
ghost use Rattle.text_io.specs.Written.{Writes};
ghost use Rattle.plan_print.specs.PlanEnds.{GroupsBatch, PlanEnds, PlanEndsWithEvents, ReadsInput};
ghost use Rattle.plan_print.specs.PlanEnds.{stop_lines, stop_of, within};
ghost use Rattle.plan_print.specs.Printed.{planned_of, text_of};

use crate::print::{Planned, write_record};
use batch_import::{ImportFault, RowFault, read_batch};
use event_lines::{EventLog, Level};
use import_causes::note_fault;
use std::alloc::{AllocError, Global};
use std::io::{self, Read, Write};
use store_data::{Product, Row, grouped, plan_of_sound};
use text_io::{MOST_INPUT, RunStop, StreamFault, WriteFailed, read_within};

/// A fault of the batch file of `persod plan`.
#[derive(Clone, Copy, Debug, PartialEq, Eq)]
pub enum BatchFault {
    /// The first fault of the batch file.
    Refused(RowFault),
    /// The input has more than `MOST_INPUT` bytes.
    TooLarge,
}

/// A reason why `persod plan` stopped.
pub type PlanStop = RunStop<BatchFault>;

/// Prints the commands of the batch file in `reader`: for each record a line with its name, then a
/// line with each command in upper-case hexadecimal (EMV CPS 1.1; this project's profile).
///
/// Nothing is written before every record is planned. The caller flushes `writer`.
///
/// # Errors
///
/// - `Refused`: the batch file has a fault; this is the first one.
/// - `TooLarge`: the input has more than `MOST_INPUT` bytes.
/// - `ReadFailed`: a read fails.
/// - `WriteFailed`: a write fails. Only a prefix of the text was written then.
/// - `Memory`: an allocation fails.
pub fn plan_engine<R: Read, W: Write>(
    alloc: Global,
    product: &Product,
    reader: &mut R,
    writer: &mut W,
) -> Result<(), PlanStop>
    requires { IsProduct product.now }
    ensures { (raw : List ℕ) × Agrees (R.remaining reader.old) raw
        × PlanEnds product.now raw (W.contents writer.old) (W.contents writer.new) result }
{
    let mut events = EventLog::new(Level::Off, io::sink());
    plan_with_events(alloc, product, reader, writer, &mut events)
}

/// Does the same as `plan_engine`. If the batch file is refused, it also writes the event line with
/// the cause to `events`. Event lines that can't be written are ignored.
///
/// # Errors
///
/// The same as for `plan_engine`.
pub fn plan_with_events<R: Read, W: Write, E: Write + Drop>(
    alloc: Global,
    product: &Product,
    reader: &mut R,
    writer: &mut W,
    events: &mut EventLog<E>,
) -> Result<(), PlanStop>
    requires { IsProduct product.now }
    ensures { (raw : List ℕ) × Agrees (R.remaining reader.old) raw
        × PlanEndsWithEvents E.contents product.now raw (W.contents writer.old)
        (W.contents writer.new) events.old events.new result }
{
    let raw = input(alloc, reader)?;
    match plan_bytes(alloc, product, raw.as_slice(), writer) {
        Ok(()) => Ok(()),
        Err(stop) => {
            note_stop(alloc, product, raw.as_slice(), stop, events);
            Err(stop)
        }
    }
}

// Writes the event line with the cause if `stop` is a fault of the batch file.
fn note_stop<E: Write + Drop>(
    alloc: Global,
    product: &Product,
    raw: &[u8],
    stop: PlanStop,
    events: &mut EventLog<E>,
)
    requires { IsProduct product.now }
    ensures { NotesAll events.old.level (E.contents events.old.writer)
        (E.contents events.new.writer) (stop_lines product.now raw.now stop) }
{
    match stop {
        RunStop::Own(BatchFault::Refused(fault)) => note_fault(alloc, raw, product, fault, events),
        RunStop::Own(BatchFault::TooLarge) => (),
        RunStop::Stream(_) => (),
    }
}

// Prints the commands of the batch file `raw`.
fn plan_bytes<W: Write>(
    alloc: Global,
    product: &Product,
    raw: &[u8],
    writer: &mut W,
) -> Result<(), PlanStop>
    requires product { IsProduct product.now }
    requires few { length raw.now ≤ most_input }
    ensures { PlanEnds product.now raw.now (W.contents writer.old) (W.contents writer.new) result }
{
    let records = records(alloc, product, raw)?;
    let plans = plans(alloc, product, records.as_slice())?;
    print(writer, plans.as_slice())?;
    Ok(())
}

// Returns the bytes of an input that isn't too large.
fn within(read: Option<Vec<u8>>) -> Result<Vec<u8>, PlanStop>
    ensures { result ≡ within read }
{
    read.ok_or(RunStop::Own(BatchFault::TooLarge))
}

// Reads the bytes of a batch file.
fn input<R: Read>(alloc: Global, reader: &mut R) -> Result<Vec<u8>, PlanStop>
    ensures { (raw : List ℕ) × Agrees (R.remaining reader.old) raw × ReadsInput raw result }
{
    let read = read_within(alloc, reader, MOST_INPUT)?;
    within(read)
}

// Returns the rows of each record of a batch file, or its first fault.
fn records(alloc: Global, product: &Product, raw: &[u8]) -> Result<Vec<Vec<Row>>, PlanStop>
    requires { IsProduct product.now }
    ensures { GroupsBatch product.now raw.now result }
{
    let batch = read_batch(alloc, raw, product).map_err(stop_of)?;
    Ok(grouped(alloc, batch.rows)?)
}

// Returns the reason to stop for a fault of the import.
fn stop_of(fault: ImportFault) -> PlanStop
    ensures { result ≡ stop_of fault }
{
    match fault {
        ImportFault::At(fault) => RunStop::Own(BatchFault::Refused(fault)),
        ImportFault::Memory => RunStop::Stream(StreamFault::Memory),
    }
}

// Plans each record.
fn plans<'a>(
    alloc: Global,
    product: &Product,
    records: &'a [Vec<Row>],
) -> Result<Vec<Planned<'a>>, AllocError>
    requires product { IsProduct product.now }
    requires records { All (λ v. AreRows v.items) records.now }
    requires sound { All (λ v. record_fault product.now.max v.items ≡ None) records.now }
    ensures { IfOk result
        (λ plans. plans.items ≡ map (λ v. planned_of product.now v.items) records.now) }
{
    let mut plans = Vec::with_capacity(alloc, records.len())?;
    for rows in records {
        plans.push(planned(alloc, product, rows.as_slice())?)?;
    }
    Ok(plans)
}

fn planned<'a>(alloc: Global, product: &Product, rows: &'a [Row]) -> Result<Planned<'a>, AllocError>
    requires product { IsProduct product.now }
    requires rows { AreRows rows.now }
    requires sound { record_fault product.now.max rows.now ≡ None }
    ensures { IfOk result (λ planned. planned ≡ planned_of product.now rows.now) }
{
    let plan = plan_of_sound(alloc, rows, product)?;
    Ok(Planned {
        name: rows[0].rec,
        plan,
    })
}

// Writes the lines of all records, or a prefix of them if the writer fails.
fn print<W: Write>(writer: &mut W, plans: &[Planned<'_>]) -> Result<(), WriteFailed>
    ensures { Writes (W.contents writer.old) (W.contents writer.new)
        (flat_map text_of plans.now) result }
{
    for record in plans {
        write_record(writer, record)?;
    }
    Ok(())
}
