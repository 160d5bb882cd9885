//! Runs `plan`, `drill` and `feed` over readers and writers.
ghost use Rattle.std.specs.Prelude.{◌≡◌, ◌⊎◌, []};
ghost use Rattle.std.specs.Io.Buffered.{writer_buffer, writer_contents};
ghost use Rattle.std.specs.Io.KnownBytes.{Keeps};
ghost use Rattle.store_data.specs.Sequence.{IsProduct};
ghost use Rattle.subcommands.specs.Runs.{DrillRuns, FeedRuns, IsPrinted, PlanRuns, Runs};
ghost use Rattle.subcommands.specs.Runs.{product_of};
ghost use Rattle.arguments.specs.Words.{InRange, IsBoot, UsesStreams};
ghost use Rattle.subcommands.specs.declared.end.End.TheVariants.{WriteFailed};

use crate::end::End;
use arguments::{FeedStart, Words};
use drill::DrillFault;
use event_lines::EventLog;
use feeding::{Exchange, MachineStart, feed_with_events};
use over_tables::drill_engine;
use plan_print::plan_with_events;
use std::alloc::Global;
use std::io::{BufWriter, Read, Write};
use store_data::{Name, Product};
use text_io::RunStop;

/// Runs `words`, which must be `plan` or `drill`, from `reader` to `writer`. If the whole text was
/// printed, it also flushes `writer`. A failed flush counts as a failed write: only a test shows
/// this. If `plan` refuses the batch file, it writes the event line with the cause; `drill` has no
/// event lines.
pub fn run<R: Read, W: Write + Drop, E: Write + Drop>(
    alloc: Global,
    words: Words,
    reader: &mut R,
    writer: &mut BufWriter<W>,
    events: &mut EventLog<E>,
) -> End
    requires range { InRange words }
    requires streams { UsesStreams words }
    ensures end { Runs E.contents words (R.remaining reader.old)
        (writer_contents W.contents writer.old) (writer_contents W.contents writer.new) events.old
        events.new result }
    ensures flushed { IsPrinted result → writer_buffer writer.new ≡ [] }
{
    match words {
        Words::Plan { max, low, check } => {
            run_plan(alloc, &product_of(max, low, check), reader, writer, events)
        }
        Words::Drill => run_drill(alloc, reader, writer),
        Words::Serve { .. } | Words::Report { .. } | Words::Feed { .. } => unreachable!(),
    }
}

/// Returns the product with the options of `plan`. Its name is `plan`. Allocates nothing.
pub fn product_of(max: u8, low: u8, check: bool) -> Product
    ensures { result ≡ product_of max low check }
{
    Product {
        code: Name::new(b"plan").unwrap(),
        max,
        low,
        check,
    }
}

/// Personalises the cards of `reader` as the machine of `start`, over `exchange`. Prints the result
/// of each card to `writer` as soon as it is known, without a flush, and writes event lines.
pub fn run_feed<R: Read, W: Write, X: Exchange, E: Write + Drop>(
    alloc: Global,
    start: FeedStart,
    reader: &mut R,
    writer: &mut W,
    exchange: &mut X,
    events: &mut EventLog<E>,
) -> End
    requires { IsBoot start.boot }
    ensures { FeedRuns E.contents start (R.remaining reader.old) (X.log exchange.old)
        (X.log exchange.new) (W.contents writer.old) (W.contents writer.new) events.old events.new
        result }
{
    let start = MachineStart {
        machine: start.machine,
        boot: start.boot,
        batch: start.batch,
    };
    match feed_with_events(alloc, start, reader, writer, exchange, events) {
        Ok(()) => End::Done,
        Err(stop) => End::from(stop),
    }
}

// Runs `plan`.
fn run_plan<R: Read, W: Write + Drop, E: Write + Drop>(
    alloc: Global,
    product: &Product,
    reader: &mut R,
    writer: &mut BufWriter<W>,
    events: &mut EventLog<E>,
) -> End
    requires { IsProduct product.now }
    ensures end { PlanRuns E.contents product.now (R.remaining reader.old)
        (writer_contents W.contents writer.old) (writer_contents W.contents writer.new) events.old
        events.new result }
    ensures flushed { IsPrinted result → writer_buffer writer.new ≡ [] }
{
    match plan_with_events(alloc, product, reader, writer, events) {
        Ok(()) => flushed(writer, End::Done),
        Err(stop) => End::from(stop),
    }
}

// Runs `drill`.
fn run_drill<R: Read, W: Write + Drop>(
    alloc: Global,
    reader: &mut R,
    writer: &mut BufWriter<W>,
) -> End
    ensures end { DrillRuns (R.remaining reader.old) (writer_contents W.contents writer.old)
        (writer_contents W.contents writer.new) result }
    ensures flushed { IsPrinted result → writer_buffer writer.new ≡ [] }
{
    match drill_engine(alloc, reader, writer) {
        Ok(()) => flushed(writer, End::Done),
        Err(RunStop::Own(DrillFault::BadLine(line))) => flushed(writer, End::BadLine(line)),
        Err(stop) => End::from(stop),
    }
}

// Flushes `writer`, and returns `end` if that succeeds.
fn flushed<W: Write + Drop>(writer: &mut BufWriter<W>, end: End) -> End
    ensures keeps { Keeps (writer_contents W.contents writer.old)
        (writer_contents W.contents writer.new) }
    ensures end { ((result ≡ end) × (writer_buffer writer.new ≡ [])) ⊎ (result ≡ WriteFailed) }
{
    match writer.flush() {
        Ok(()) => end,
        Err(_) => End::WriteFailed,
    }
}
