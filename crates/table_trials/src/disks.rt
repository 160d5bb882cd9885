//! The two files of a database in memory. They fail from some call on, and are opened again with
//! the bytes that are left.
ghost use Rattle.std.specs.Prelude.{IfOk, IsTrue};
ghost use Rattle.sqlite_disk.specs.Memory.{memory_is_usable};

use sqlite::{Connection, FileStore, Files, Options};
use sqlite_disk::{Crash, Disk, Fuse, Memory};
use std::alloc::Global;
use std::io;

/// The bytes of the WAL and of the database file.
#[derive(Debug, PartialEq, Drop)]
pub(crate) struct Left {
    log: Vec<u8>,
    db: Vec<u8>,
}

/// The number of calls that each file performs. Every later call fails and changes nothing.
#[derive(Clone, Copy)]
pub(crate) struct Stop {
    pub(crate) log: u64,
    pub(crate) db: u64,
}

/// The result of closing two files: whether no call failed, and their bytes after three crashes:
/// none of the written bytes are lost; those of the WAL that weren't durable are; those of both
/// files are.
#[derive(Drop)]
pub(crate) struct Ended {
    pub(crate) is_closed: bool,
    pub(crate) lefts: Vec<Left>,
}

/// Returns two empty files.
pub(crate) fn nothing(alloc: Global) -> Left {
    Left {
        log: Vec::new(alloc),
        db: Vec::new(alloc),
    }
}

// A run has a few checkpoints, and the cache has room for all pages.
const OPTIONS: Options = Options {
    cache_pages: 64,
    spill_pages: 64,
    checkpoint_frames: 16,
    seed: 1,
};

/// Opens two files with the bytes of `left`, which fail from `stop` on.
///
/// # Errors
///
/// Returns the bytes that are left if a call failed.
pub(crate) fn open(
    alloc: Global,
    left: &Left,
    stop: Stop,
) -> Result<Connection<FileStore<Fuse<Memory>>>, io::Result<Ended>> {
    let (log, db) = match (holding(alloc, &left.log), holding(alloc, &left.db)) {
        (Ok(log), Ok(db)) => (log, db),
        (Err(error), _) | (_, Err(error)) => return Err(Err(error)),
    };
    let files = Files {
        log: Fuse::new(log, stop.log),
        db: Fuse::new(db, stop.db),
    };
    match Connection::open_files(alloc, files, OPTIONS) {
        Ok(conn) => Ok(conn),
        Err((_, left)) => Err(after_end(alloc, false, left.into_files())),
    }
}

/// Closes the files.
pub(crate) fn close(alloc: Global, conn: Connection<FileStore<Fuse<Memory>>>) -> io::Result<Ended> {
    match conn.close_files() {
        Ok(files) => after_end(alloc, true, files),
        Err((_, store)) => after_end(alloc, false, store.close()),
    }
}

/// Returns a file in memory that holds `bytes`.
pub(crate) fn holding(alloc: Global, bytes: &[u8]) -> io::Result<Memory>
    ensures { IfOk result (λ memory. IsTrue (memory_is_usable memory)) }
{
    let mut memory = Memory::new(alloc);
    memory.write_at(0, bytes)?;
    memory.sync()?;
    Ok(memory)
}

fn after_end(alloc: Global, is_closed: bool, mut files: Files<Fuse<Memory>>) -> io::Result<Ended> {
    let mut lefts = Vec::new(alloc);
    lefts.push(held(alloc, &files)?)?;
    files.log.crash();
    lefts.push(held(alloc, &files)?)?;
    files.db.crash();
    lefts.push(held(alloc, &files)?)?;
    Ok(Ended { is_closed, lefts })
}

fn held(alloc: Global, files: &Files<Fuse<Memory>>) -> io::Result<Left> {
    Ok(Left {
        log: files.log.inner().bytes().to_vec(alloc)?,
        db: files.db.inner().bytes().to_vec(alloc)?,
    })
}
