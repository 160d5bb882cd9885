//! Runs a server from its first line to its last.
ghost use Rattle.std.specs.Prelude.{◌≡◌, List, OnOk, Result, is_some, length};
ghost use Rattle.job_facts.specs.declared.store.StoreFault.{StoreFault as StoreFaultValue};
ghost use Rattle.server.specs.Exchanges.{Exchange, Moves, ServesAll};
ghost use Rattle.server_run.specs.declared.observation.Observation.{Observation as Observed};
ghost use Rattle.server_run.specs.Openings.{NotesClose};
ghost use Rattle.server_run.specs.ObservedRuns.{IsStopOf, NotesRun, ObservesAll};
ghost use Rattle.server_run.specs.ServerLines.{WritesFirst, WritesLast, WritesLines};

use crate::closing::close;
use crate::opening::{Opened, note_opening};
use crate::sequence::{Run, serve_connections};
use crate::stopping::{ServeStop, write_listening, write_served};
use event_lines::EventLog;
use job_facts::ServerStore;
use server::Connections;
use std::alloc::Global;
use std::io::Write;

/// Writes a line with the port, serves `turns` connections, one at a time, closes the store, and
/// writes a line with the number of connections. Also writes the event lines of the database file,
/// the connections and the close. An event line that can't be written is not an error.
///
/// Over sockets, no contract relates the event lines to the bytes of the connections. Only a test
/// shows that the two lines on `writer` are flushed.
///
/// # Errors
///
/// Connections served before an error are not affected, and the store is closed even after an
/// error.
///
/// - `Next`: the next connection can't be accepted.
/// - `Write`: one of the two lines can't be written.
/// - `Memory`: an allocation fails. If the first line was written, either all connections were
///   served, or the allocation was for the next connection.
/// - `Store`: all connections were served, but the store can't be closed.
pub fn serve_and_report<S: ServerStore, C: Connections, W: Write, E: Write + Drop>(
    alloc: Global,
    store: S,
    connections: &mut C,
    writer: &mut W,
    events: &mut EventLog<E>,
    opened: &Opened<'_>,
    port: u16,
    turns: u32,
) -> Result<(), ServeStop>
    ensures { (s : S) × (es : List Exchange)
        × Moves (C.queue connections.old) (C.queue connections.new) es
        × ServesAll (S.state store) (S.state s) es
        × WritesLines (S.closed s) (C.refuses connections.new) port turns (length es)
        (W.contents writer.old) (W.contents writer.new) result
        × NotesRun (S.closed s) (S.unclosed s) (S.state store) (S.state s)
        (is_some (C.queue connections.old)) opened.now es result events.old.level
        (E.contents events.old.writer) (E.contents events.new.writer) }
{
    reply_store::laws::left_in_turn::<S>();
    let mut store = store;
    note_opening(alloc, &mut store, events, opened);
    let run = serve_listening(alloc, &mut store, connections, writer, events, port, turns);
    finish(alloc, store, run, events, writer, turns)
}

// Writes the first line, and then serves the connections.
fn serve_listening<S: ServerStore, C: Connections, W: Write, E: Write + Drop>(
    alloc: Global,
    store: &mut S,
    connections: &mut C,
    writer: &mut W,
    events: &mut EventLog<E>,
    port: u16,
    turns: u32,
) -> Run
    ensures served { (es : List Exchange) × (os : List Observed)
        × ObservesAll S.state store.old store.new (C.queue connections.old)
        (C.queue connections.new) events.old.level (E.contents events.old.writer)
        (E.contents events.new.writer) es os × (length es ≡ result.count) }
    ensures writes { WritesFirst (C.refuses connections.new) port turns result.count
        (W.contents writer.old) (W.contents writer.new) result.outcome }
    ensures level { events.new.level ≡ events.old.level }
{
    match write_listening(alloc, u32::from(port), writer) {
        Ok(()) => serve_connections(alloc, store, connections, events, turns),
        Err(stop) => Run {
            count: 0,
            outcome: Err(stop),
        },
    }
}

// Closes the store, and then writes the last line if all connections were served and the store
// could be closed.
fn finish<S: ServerStore, W: Write, E: Write + Drop>(
    alloc: Global,
    store: S,
    run: Run,
    events: &mut EventLog<E>,
    writer: &mut W,
    turns: u32,
) -> Result<(), ServeStop>
    ensures writes { WritesLast (S.closed store) turns run.outcome (W.contents writer.old)
        (W.contents writer.new) result }
    ensures noted { (closing : Result (Unit {0}) StoreFaultValue)
        × OnOk run.outcome (IsStopOf result closing)
        × NotesClose (S.closed store) (S.unclosed store) run.count events.old.level
        (E.contents events.old.writer) (E.contents events.new.writer) closing }
{
    let closing = close(alloc, store, events, run.count);
    run.outcome?;
    match closing {
        Ok(()) => write_served(alloc, turns, writer),
        Err(fault) => Err(ServeStop::Store { fault }),
    }
}
