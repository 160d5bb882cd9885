//! A file in memory that a power failure may change: any part of what was written since the last
//! sync is lost. One write can find the disk full.
ghost use Rattle.std.specs.Prelude.{◌≡◌, ◌+◌, length, refl, true, false, is_ok, IfOk, IsTrue, OnErr, OnOk};
ghost use Rattle.sqlite_disk.specs.Disk.{CountsFault, Cut, Holds, Mixed, Torn};
ghost use Rattle.sqlite_disk.specs.Refusal.{finds_no_room};

use sqlite_disk::{Disk, Tally, digest_of};
use std::alloc::{AllocError, Global};
use std::io;

// The number of bytes of a write that are lost or kept together.
const PIECE: usize = 256;

/// A file in memory. A torn write leaves each byte old or new, so most commits need one sync. Its
/// clauses describe no crash: `after_power_cut` returns what one may leave.
#[derive(Drop)]
pub(crate) struct Mixing {
    bytes: Vec<u8>,
    /// The bytes at the last sync.
    synced: Vec<u8>,
    /// The writes since then, with their offsets.
    writes: Vec<(usize, Vec<u8>)>,
    usable: bool,
    faults: u64,
    caught: u64,
    refused: u64,
    /// The number of writes before the one that finds the disk full.
    writes_left: u64,
}

impl Mixing {
    /// Returns a file that holds `bytes`. After `writes` writes, one finds the disk full.
    pub(crate) fn holding(alloc: Global, bytes: &[u8], writes: u64) -> Result<Mixing, AllocError>
        ensures { IfOk result (λ file. IsTrue file.usable) }
    {
        Ok(Mixing {
            bytes: bytes.to_vec(alloc)?,
            synced: bytes.to_vec(alloc)?,
            writes: Vec::new(alloc),
            usable: true,
            faults: 0,
            caught: 0,
            refused: 0,
            writes_left: writes,
        })
    }

    /// Returns `true` if a write has found the disk full.
    pub(crate) fn was_full(&self) -> bool {
        self.refused > 0
    }

    /// Returns what a power failure may leave: of what was written since the last sync, about
    /// `odds` of four pieces. `seed` selects them.
    pub(crate) fn after_power_cut(
        &self,
        alloc: Global,
        odds: u64,
        seed: u64,
    ) -> Result<Vec<u8>, AllocError> {
        let mut left = self.synced.to_vec(alloc)?;
        let mut state = next(seed);
        for write in &self.writes {
            let mut at = write.0;
            for piece in write.1.chunks(PIECE) {
                state = next(state);
                if state >> 62 < odds {
                    put(&mut left, at, piece)?;
                }
                at = at.saturating_add(piece.len());
            }
        }
        Ok(left)
    }
}

// Returns the next state of a linear congruential generator.
fn next(state: u64) -> u64 {
    state
        .wrapping_mul(6364136223846793005)
        .wrapping_add(1442695040888963407)
}

fn counted(outcome: Result<(), AllocError>, faults: &mut u64) -> io::Result<()>
    ensures variant { is_ok result ≡ is_ok outcome }
    ensures kind { finds_no_room result ≡ false }
    ensures faults { CountsFault result faults.old faults.new }
{
    if outcome.is_err() {
        *faults = faults.saturating_add(1);
        return Err(io::Error::from(io::ErrorKind::OutOfMemory));
    }
    Ok(())
}

// Writes `bytes` over a file, or after its end.
fn put(file: &mut Vec<u8>, at: usize, bytes: &[u8]) -> Result<(), AllocError>
    ensures written { OnOk result (Holds file.new.items at bytes.now) }
    ensures others { Torn at (length bytes.now) file.old.items file.new.items }
    ensures mixed { Mixed at bytes.now file.old.items file.new.items }
    ensures err { OnErr result (file.new.items ≡ file.old.items) }
{
    let end = at.checked_add(bytes.len()).ok_or(AllocError)?;
    if end > file.len() {
        file.resize(end, 0)?;
    }
    file[at..end].copy_from_slice(bytes);
    Ok(())
}

// Adds a write to those since the last sync.
fn note(writes: &mut Vec<(usize, Vec<u8>)>, at: usize, bytes: &[u8]) -> Result<(), AllocError> {
    let kept = bytes.to_vec(*writes.allocator())?;
    writes.push((at, kept))?;
    Ok(())
}

fn resize(file: &mut Vec<u8>, len: usize) -> Result<(), AllocError>
    ensures len { OnOk result (length file.new.items ≡ len) }
    ensures others { Cut len file.old.items file.new.items }
{
    file.resize(len, 0)
}

fn replace(file: &mut Vec<u8>, bytes: &[u8]) -> Result<(), AllocError> {
    let copy = bytes.to_vec(*file.allocator())?;
    *file = copy;
    Ok(())
}

impl Disk for Mixing {
    ghost seen = { λ m. m.bytes.items };

    ghost may_leave = { λ m c. c ≡ m.bytes.items };

    ghost is_usable = { λ m. m.usable };

    ghost faults = { λ m. m.faults };

    ghost is_clean = { λ _. true };

    ghost tally_of = { λ m. record { caught = m.caught; refused = m.refused } };

    ghost key_of = { λ _. 0 };

    ghost is_fair = { λ _ _. true };

    ghost fair_if_clean = { λ _ _ _. refl };

    ghost seen_may_stay = { λ _. refl };

    ghost is_mixing = { λ _. true };

    fn mixes(&self) -> bool {
        true
    }

    fn key(&self) -> u64 {
        0
    }

    fn tally(&self) -> Tally {
        Tally {
            caught: self.caught,
            refused: self.refused,
        }
    }

    fn may_be_used(&self) -> bool {
        self.usable
    }

    fn len(&mut self) -> io::Result<usize> {
        Ok(self.bytes.len())
    }

    fn read_at(&mut self, at: usize, buf: &mut [u8]) -> io::Result<()> {
        if at > self.bytes.len() || buf.len() > self.bytes.len() - at {
            return Err(io::ErrorKind::UnexpectedEof.into());
        }
        buf.copy_from_slice(&self.bytes[at..at + buf.len()]);
        Ok(())
    }

    fn read_checked(&mut self, key: u64, want: u64, at: usize, buf: &mut [u8]) -> io::Result<()> {
        self.read_at(at, buf)?;
        if digest_of(key, buf) != want {
            self.faults = self.faults.saturating_add(1);
            self.caught = self.caught.saturating_add(1);
            return Err(io::ErrorKind::InvalidData.into());
        }
        Ok(())
    }

    fn write_at(&mut self, at: usize, bytes: &[u8]) -> io::Result<()> {
        if self.writes_left == 0 {
            self.writes_left = u64::MAX;
            self.faults = self.faults.saturating_add(1);
            self.refused = self.refused.saturating_add(1);
            return Err(io::Error::from(io::ErrorKind::StorageFull));
        }
        self.writes_left -= 1;
        counted(note(&mut self.writes, at, bytes), &mut self.faults)?;
        counted(put(&mut self.bytes, at, bytes), &mut self.faults)
    }

    fn set_len(&mut self, len: usize) -> io::Result<()> {
        counted(resize(&mut self.bytes, len), &mut self.faults)
    }

    fn sync(&mut self) -> io::Result<()> {
        self.usable = false;
        counted(replace(&mut self.synced, &self.bytes), &mut self.faults)?;
        self.writes.clear();
        self.usable = true;
        Ok(())
    }
}
