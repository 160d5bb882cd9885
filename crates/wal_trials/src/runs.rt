//! Runs of a database over two files in memory, and what a power failure leaves of them.
ghost use Rattle.std.specs.Prelude.{IsTrue};

use crate::mixing::Mixing;
use sqlite::{Alter, Connection, Options};
use sqlite_disk::{Disk, Files, Fuse};
use std::alloc::{AllocError, Global};
use std::test::Fail;
use wal_damage::{Look, look_at};

/// A number of calls of a file that no run reaches.
pub(crate) const MANY_CALLS: u64 = 10_000;

// A run has a checkpoint.
const OPTIONS: Options = Options {
    cache_pages: 64,
    spill_pages: 64,
    checkpoint_frames: 8,
    seed: 1,
};

const TABLE: &str = "CREATE TABLE IF NOT EXISTS t (id INTEGER PRIMARY KEY, n INTEGER) STRICT";

const ROW: &str = "INSERT INTO t (n) VALUES (1)";

/// The bytes of the WAL and of the database file.
#[derive(Drop)]
pub(crate) struct Left {
    pub(crate) log: Vec<u8>,
    pub(crate) db: Vec<u8>,
}

impl Left {
    /// Returns two empty files.
    pub(crate) fn nothing(alloc: Global) -> Left {
        Left {
            log: Vec::new(alloc),
            db: Vec::new(alloc),
        }
    }

    /// Returns what `look_at` finds in the files.
    pub(crate) fn look(&self, alloc: Global) -> Result<Look, Fail> {
        let mut files = Files {
            log: Mixing::holding(alloc, &self.log, MANY_CALLS)?,
            db: Mixing::holding(alloc, &self.db, MANY_CALLS)?,
        };
        look_at(alloc, &mut files).map_err(|_| Fail::new("the files can't be read"))
    }
}

/// The faults of a run: the number of calls that each file performs before it stops, and the number
/// of writes of the WAL before the one that finds the disk full.
#[derive(Clone, Copy)]
pub(crate) struct Faults {
    pub(crate) log_calls: u64,
    pub(crate) db_calls: u64,
    pub(crate) log_writes: u64,
}

/// A run without faults.
pub(crate) const NO_FAULTS: Faults = Faults {
    log_calls: MANY_CALLS,
    db_calls: MANY_CALLS,
    log_writes: MANY_CALLS,
};

/// The two files after a run.
#[derive(Drop)]
pub(crate) struct Ended {
    /// `true` if the last commit succeeded.
    pub(crate) is_done: bool,
    files: Files<Fuse<Mixing>>,
}

impl Ended {
    /// Returns what a power failure may leave: of what was written since the last sync, about
    /// `odds` of four pieces. `seed` selects them.
    pub(crate) fn left(&self, alloc: Global, odds: u64, seed: u64) -> Result<Left, AllocError> {
        Ok(Left {
            log: self.files.log.inner().after_power_cut(alloc, odds, seed)?,
            db: self.files.db.inner().after_power_cut(alloc, odds, seed)?,
        })
    }

    /// Returns `true` if a write of the WAL found the disk full.
    pub(crate) fn was_full(&self) -> bool {
        self.files.log.inner().was_full()
    }
}

// Inserts rows, each in a commit of its own. Returns `true` if the last commit succeeded.
fn insert_rows<S: Alter>(conn: &mut Connection<S>) -> bool {
    let mut is_done = conn.execute(TABLE, &[]).is_ok();
    for _ in 0..5 {
        is_done = conn.execute(ROW, &[]).is_ok();
    }
    is_done
}

// Opens a database over `files`, and inserts rows. Returns `true` if the last commit succeeded, and
// the files.
fn run<D: Disk + Drop>(alloc: Global, files: Files<D>) -> (bool, Files<D>)
    requires log { IsTrue (D.Disk.is_usable files.log) }
    requires db { IsTrue (D.Disk.is_usable files.db) }
{
    match Connection::open_files(alloc, files, OPTIONS) {
        Ok(mut conn) => {
            let is_done = insert_rows(&mut conn);
            (is_done, conn.into_store().close())
        }
        Err((_, left)) => (false, left.into_files()),
    }
}

/// Opens a database over the files `left`, and inserts rows, each in a commit of its own.
pub(crate) fn run_over(alloc: Global, left: &Left, faults: Faults) -> Result<Ended, AllocError> {
    let log = Mixing::holding(alloc, &left.log, faults.log_writes)?;
    let db = Mixing::holding(alloc, &left.db, MANY_CALLS)?;
    let files = Files {
        log: Fuse::new(log, faults.log_calls),
        db: Fuse::new(db, faults.db_calls),
    };
    let (is_done, files) = run(alloc, files);
    Ok(Ended { is_done, files })
}
