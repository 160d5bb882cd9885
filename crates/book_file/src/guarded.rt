//! Guards the two files of a database, so that the database file is never written.
ghost use Rattle.std.specs.Prelude.{◌≡◌, ◌+◌, false, IfSome, IsErr};
ghost use Rattle.sqlite_disk.specs.Disk.{CountsFault, Only};
ghost use Rattle.sqlite_disk.specs.Refusal.{finds_no_room};

use sqlite_disk::{Disk, Start, Tally};
use std::io;
use std::marker::PhantomData;

/// One of the two files of a database. The WAL accepts what SQLite writes when it opens the
/// database. The database file refuses every write, so no call changes the contents that it had
/// when it was opened.
#[derive(Drop)]
pub struct Guarded<D: Disk, S: Start> {
    file: D,
    // Represents the contents of the two files when they were opened.
    start: PhantomData<S>,
    is_log: bool,
    /// The number of refused writes.
    refused: u64,
    ghost kept: { is_log ≡ false → Only S.Start.db (D.Disk.may_leave file) },
}

impl<D: Disk, S: Start> Guarded<D, S> {
    ghost use Rattle.std.specs.Prelude.{◌↔◌, IsTrue, None};
    ghost use Rattle.book_file.specs.Left.{HoldsStill, IsLog, WasToBeWritten, file_of};

    /// Guards `file`, which was just opened. `is_log` is `true` if it is the WAL.
    pub(crate) fn new(file: D, is_log: bool) -> Guarded<D, S>
        requires { is_log ≡ false → Only S.Start.db (D.Disk.may_leave file) }
        ensures file { file_of result ≡ file }
    {
        Guarded {
            file,
            start: PhantomData,
            is_log,
            refused: 0,
        }
    }

    /// Returns `true` if a write was refused: SQLite tried to create a database in the file.
    pub(crate) fn was_to_be_written(&self) -> bool
        ensures { IsTrue result ↔ WasToBeWritten self.now }
    {
        self.refused > 0
    }

    /// Returns the database file without its guard, or `None` if the file is the WAL.
    pub(crate) fn into_database(self) -> Option<D>
    where
        D: Drop,
        ensures file { IfSome result (λ file. file ≡ file_of self) }
        ensures left { IfSome result (HoldsStill D.Disk S.Start.db) }
        ensures none { result ≡ None → IsLog self }
    {
        if self.is_log {
            return None;
        }
        Some(self.file)
    }

    /// Returns the file without its guard.
    pub(crate) fn into_file(self) -> D
        ensures { result ≡ file_of self }
    {
        self.file
    }
}

// Counts a refused write, and returns its error.
fn refuse(refused: &mut u64) -> io::Result<()>
    ensures err { IsErr result }
    ensures faults { CountsFault result refused.old refused.new }
    ensures kind { finds_no_room result ≡ false }
{
    *refused = refused.saturating_add(1);
    Err(io::Error::other("the file is only read"))
}

impl<D: Disk, S: Start> Disk for Guarded<D, S> {
    ghost seen = { λ f. D.Disk.seen f.file };

    ghost may_leave = { λ f. D.Disk.may_leave f.file };

    ghost is_usable = { λ f. D.Disk.is_usable f.file };

    ghost faults = { λ f. D.Disk.faults f.file + f.refused };

    ghost tally_of = { λ f. D.Disk.tally_of f.file };

    ghost is_clean = { λ f. D.Disk.is_clean f.file };

    ghost key_of = { λ f. D.Disk.key_of f.file };

    ghost is_fair = { λ f. D.Disk.is_fair f.file };

    ghost fair_if_clean = { λ f. D.Disk.fair_if_clean f.file };

    ghost seen_may_stay = { λ f. D.Disk.seen_may_stay f.file };

    ghost is_mixing = { λ f. D.Disk.is_mixing f.file };

    fn mixes(&self) -> bool {
        self.file.mixes()
    }

    fn key(&self) -> u64 {
        self.file.key()
    }

    fn tally(&self) -> Tally {
        self.file.tally()
    }

    fn may_be_used(&self) -> bool {
        self.file.may_be_used()
    }

    fn len(&mut self) -> io::Result<usize> {
        self.file.len()
    }

    fn read_at(&mut self, at: usize, buf: &mut [u8]) -> io::Result<()> {
        self.file.read_at(at, buf)
    }

    fn read_checked(&mut self, key: u64, want: u64, at: usize, buf: &mut [u8]) -> io::Result<()> {
        self.file.read_checked(key, want, at, buf)
    }

    fn write_at(&mut self, at: usize, bytes: &[u8]) -> io::Result<()> {
        if self.is_log {
            self.file.write_at(at, bytes)
        } else {
            refuse(&mut self.refused)
        }
    }

    fn set_len(&mut self, len: usize) -> io::Result<()> {
        if self.is_log {
            self.file.set_len(len)
        } else {
            refuse(&mut self.refused)
        }
    }

    fn sync(&mut self) -> io::Result<()> {
        self.file.sync()
    }
}
