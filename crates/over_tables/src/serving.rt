//! A server over a database file: the main theorem over SQLite.
ghost use Rattle.std.specs.Prelude.{List, is_some, length};
ghost use Rattle.sqlite.specs.Files.{over_files};
ghost use Rattle.sqlite.specs.declared.FileStore.{FileStore as File};
ghost use Rattle.schema.specs.declared.store.SqlStore.{SqlStore as Store};
ghost use Rattle.schema.specs.Closing.{FailsToFinish, LeavesWholeFile};
ghost use Rattle.schema.specs.Stores.{connection, stands_for};
ghost use Rattle.server.specs.Exchanges.{Exchange, Moves, ServesAll};
ghost use Rattle.server_run.specs.ObservedRuns.{NotesRun};
ghost use Rattle.server_run.specs.ServerLines.{WritesLines};

use event_lines::EventLog;
use schema::SqlStore;
use server::Connections;
use server_run::{Opened, ServeStop, serve_and_report};
use sqlite::FileStore;
use sqlite_disk::Disk;
use std::alloc::Global;
use std::io::Write;

/// Writes a line with the port, serves `turns` connections, one at a time, over the store in a
/// database file, closes the file, and writes a line with the number of connections. When this last
/// line is written, the database file is complete without its WAL. Also writes event lines.
///
/// # Errors
///
/// Connections served before an error are not affected, and the store is closed even after an
/// error.
///
/// - `Next`: the next connection can't be accepted.
/// - `Write`: one of the two lines can't be written.
/// - `Memory`: an allocation fails.
/// - `Store`: all connections were served, but the file can't be closed.
pub fn serve_over_tables<D: Disk + Drop, C: Connections, W: Write, E: Write + Drop>(
    alloc: Global,
    store: SqlStore<FileStore<D>>,
    connections: &mut C,
    writer: &mut W,
    events: &mut EventLog<E>,
    opened: &Opened<'_>,
    port: u16,
    turns: u32,
) -> Result<(), ServeStop>
    ensures { (s : Store (File D D.Disk) over_files) × (es : List Exchange)
        × Moves (C.queue connections.old) (C.queue connections.new) es
        × ServesAll (stands_for over_files store) (stands_for over_files s) es
        × WritesLines (LeavesWholeFile (connection s)) (C.refuses connections.new) port turns
        (length es) (W.contents writer.old) (W.contents writer.new) result
        × NotesRun (LeavesWholeFile (connection s)) (FailsToFinish (connection s))
        (stands_for over_files store) (stands_for over_files s)
        (is_some (C.queue connections.old)) opened.now es result events.old.level
        (E.contents events.old.writer) (E.contents events.new.writer) }
{
    serve_and_report(
        alloc,
        store,
        connections,
        writer,
        events,
        opened,
        port,
        turns,
    )
}
