//! The tasks over the store in a database file: a server, and a report.

use event_lines::{EventLog, Level};
use job_facts::ServerStore;
use loopback::Loopback;
use over_tables::serve_over_tables;
use reports::close_report;
use schema::SqlStore;
use server_run::Opened;
use sqlite::FileStore;
use sqlite_disk::Disk;
use std::alloc::Global;
use std::io;
use store_data::Name;
use store_files::{FileState, StoreTask};
use subcommands::{End, end_of_close, note_unstarted};

/// A size in bytes just under 32 MiB, with space for the headers of glibc and of the allocator. If
/// a larger block is freed, glibc doesn't adapt to its size.
const LARGE_BLOCK: usize = 33_488_896;

// Makes the C library keep freed blocks of up to `LARGE_BLOCK` bytes for later allocations.
// Otherwise it returns each large block to the system after an arrival, and requests and clears it
// again for the next one. With a batch of 600 KB in the store this takes a third of the time of an
// `open` request.
//
// It is enough to free one block of this size. The block isn't touched, so it uses no memory. If
// its allocation fails, nothing changes.
fn keep_large_blocks(alloc: Global) {
    drop(Vec::<u8>::with_capacity(alloc, LARGE_BLOCK));
}

/// A task that serves `turns` connections on the port `port` of 127.0.0.1.
#[derive(Drop)]
pub struct ServeTask<'a> {
    pub rt: &'a HostRuntime,
    /// The path of the database file.
    pub path: &'a str,
    pub port: u16,
    pub turns: u32,
    /// The level that says which event lines are written.
    pub level: Level,
}

impl StoreTask for ServeTask<'_> {
    ghost use Rattle.tasks.specs.Tasks.{Serves};

    type Done = End;

    ghost ran = { Serves };

    fn perform<D: Disk + Drop>(self, store: SqlStore<FileStore<D>>, found: FileState) -> End {
        let ServeTask {
            rt,
            path,
            port,
            turns,
            level,
        } = self;
        keep_large_blocks(rt.alloc());
        let mut connections = match Loopback::listen(rt, port) {
            Ok(connections) => connections,
            Err(error) => {
                let mut events = EventLog::new(level, rt.stderr());
                let end = note_unstarted(rt.alloc(), error, port, &mut events);
                return end_of_close(end, store.finish());
            }
        };
        let port = connections.port();
        connections.end_after(turns);
        let opened = Opened {
            path: path.as_bytes(),
            is_new: found.is_new,
            has_log: found.has_log,
            older: found.older,
        };
        match serve_over_tables(
            rt.alloc(),
            store,
            &mut connections,
            &mut io::writer(rt),
            &mut EventLog::new(level, rt.stderr()),
            &opened,
            port,
            turns,
        ) {
            Ok(()) => End::Done,
            Err(stop) => End::from(stop),
        }
    }
}

/// A task that prints the report of the batch `batch`.
#[derive(Drop)]
pub struct ReportTask<'a> {
    pub rt: &'a HostRuntime,
    pub batch: Name,
}

impl StoreTask for ReportTask<'_> {
    ghost use Rattle.tasks.specs.Tasks.{ReportsBatch};

    type Done = End;

    ghost ran = { ReportsBatch };

    fn perform<D: Disk + Drop>(self, store: SqlStore<FileStore<D>>, _found: FileState) -> End {
        let ReportTask { rt, batch } = self;
        let mut store = store;
        let end = match close_report(rt.alloc(), &mut store, &batch, &mut io::writer(rt)) {
            Ok(()) => End::Done,
            Err(fault) => End::from(fault),
        };
        end_of_close(end, store.finish())
    }
}
