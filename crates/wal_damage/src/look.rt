//! Examines the WAL of a database before SQLite opens the two files.
ghost use Rattle.std.specs.Prelude.{◌≡◌, ◌+◌, ◌*◌, ◌-◌, ◌/◌, ◌<◌, ◌≤◌, ◌^◌, length};
ghost use Rattle.std.specs.Prelude.{IfErr, IfOk, OnOk, IsTrue};
ghost use Rattle.std.specs.IoError.{error_kind};
ghost use Rattle.sqlite_disk.specs.Disk.{CountsFault, CountsFaultIf};
ghost use Rattle.sqlite_wal.specs.PageSize.{size_in_file};
ghost use Rattle.sqlite_wal.specs.Reads.{AreClean, IsClean, OnlyReads};
ghost use Rattle.sqlite_wal.specs.Recovery.{frame, frame_at, header};
ghost use Rattle.wal_damage.specs.Damage.{is_cleared, is_page_size, look_at, look_to, page_size_of};
ghost use Rattle.wal_damage.specs.Faults.{HasFailed, HasNotFailed, fault_of};

use crate::format::{FRAME_HEADER_LEN, HEADER_LEN, be32_at, is_header};
use crate::walk::{advance, begin, shown};
use sqlite_disk::{Disk, Files};
use std::alloc::{AllocError, Global};
use std::io::{self, ErrorKind};

/// The reason why a WAL couldn't be examined.
#[derive(Clone, Copy, Debug, PartialEq, Eq)]
pub enum LookFault {
    /// A read failed.
    Failed,
    /// An allocation failed.
    Memory,
}

impl From<io::Error> for LookFault {
    ghost from_gives = { λ error fault. fault ≡ fault_of (error_kind error) };

    fn from(error: io::Error) -> LookFault {
        if error.kind() == ErrorKind::OutOfMemory {
            LookFault::Memory
        } else {
            LookFault::Failed
        }
    }
}

impl From<AllocError> for LookFault {
    ghost use Rattle.wal_damage.specs.declared.look.LookFault.TheVariants.{Memory};

    ghost from_gives = { λ _ fault. fault ≡ Memory };

    fn from(_error: AllocError) -> LookFault {
        LookFault::Memory
    }
}

/// The result of examining a WAL.
#[derive(Clone, Copy, Debug, PartialEq, Eq)]
pub struct Look {
    /// The number of durable commits that recovery doesn't reach because something before them is
    /// damaged.
    pub lost: u64,
    /// `true` if commits of another program continue after a break. This doesn't prove damage.
    pub is_suspect: bool,
}

// The result if no frame is examined.
const NOTHING: Look = Look {
    lost: 0,
    is_suspect: false,
};

/// Counts the durable commits of a WAL that recovery doesn't reach, and finds suspect commits of
/// another program (SQLite's database file format, section 4, "The Write-Ahead Log"). Reads the WAL
/// once, from start to end, allocates memory for one frame, and writes nothing.
///
/// Call it with two files that were just opened, before SQLite recovers the WAL or writes to it.
///
/// No contract says that a crash never leaves a WAL with lost commits: the contracts of the Rattle
/// toolchain on crashes describe the pages that the two files represent, and not the bytes after
/// the last commit.
///
/// # Errors
///
/// - `Failed` if a read fails.
/// - `Memory` if an allocation fails.
pub fn look_at<D: Disk>(alloc: Global, files: &mut Files<D>) -> Result<Look, LookFault>
    requires log_usable { IsTrue (D.Disk.is_usable files.old.log) }
    requires db_usable { IsTrue (D.Disk.is_usable files.old.db) }
    ensures value { IfOk result (λ look. AreClean D.Disk files.new.log files.new.db
        → look ≡ look_at (D.Disk.seen files.old.db) (D.Disk.seen files.old.log)) }
    ensures calm { IfOk result (λ _. HasNotFailed D.Disk files.old files.new) }
    ensures cause { IfErr result (λ fault. fault ≡ LookFault.Failed
        → HasFailed D.Disk files.old files.new) }
    ensures log { OnlyReads D.Disk files.old.log files.new.log }
    ensures db { OnlyReads D.Disk files.old.db files.new.db }
{
    let len = files.log.len()?;
    if len < HEADER_LEN {
        return Ok(NOTHING);
    }
    let mut head = [0; HEADER_LEN];
    files.log.read_at(0, &mut head)?;
    let page_size = page_size_of(&head, &mut files.db)?;
    if is_cleared(&head) || !is_page_size(page_size) {
        return Ok(NOTHING);
    }
    let mut frame = vec![in alloc; 0; FRAME_HEADER_LEN + page_size]?;
    let frames = (len - HEADER_LEN) / frame.len();
    Ok(look_in(&mut files.log, &head, page_size, frames, &mut frame)?)
}

// Returns `true` if an interrupted checkpoint cleared the header.
fn is_cleared(head: &[u8; 32]) -> bool
    ensures { result ≡ is_cleared head.now }
{
    let has_header = is_header(head);
    !has_header && head[0] == 0
}

fn is_page_size(size: usize) -> bool
    ensures value { result ≡ is_page_size size }
    ensures small { IsTrue result → size ≤ 65536 }
{
    512 <= size && size <= 65536
}

// Returns the page size that the header of the WAL names, or that the database file names if this
// header is damaged.
fn page_size_of<D: Disk>(head: &[u8; 32], db: &mut D) -> io::Result<usize>
    requires { IsTrue (D.Disk.is_usable db.old) }
    ensures size { IfOk result (λ n. IsClean D.Disk db.new
        → n ≡ page_size_of (D.Disk.seen db.old) head.now) }
    ensures faults { CountsFault result (D.Disk.faults db.old) (D.Disk.faults db.new) }
    ensures same { OnlyReads D.Disk db.old db.new }
{
    if is_header(head) {
        return Ok(be32_at(head, 8) as usize);
    }
    size_in(db)
}

// Returns the page size that the header of a database file names, or 0 if the file is too short.
fn size_in<D: Disk>(db: &mut D) -> io::Result<usize>
    requires { IsTrue (D.Disk.is_usable db.old) }
    ensures size { IfOk result (λ n. IsClean D.Disk db.new → n ≡ size_in_file (D.Disk.seen db.old)) }
    ensures faults { CountsFault result (D.Disk.faults db.old) (D.Disk.faults db.new) }
    ensures same { OnlyReads D.Disk db.old db.new }
{
    if db.len()? < 18 {
        return Ok(0);
    }
    let mut field = [0; 2];
    db.read_at(16, &mut field)?;
    let named = field[0] as usize * 256 + field[1] as usize;
    Ok(if named == 1 { 65536 } else { named })
}

// Examines the first `frames` frames. `buf` has room for one frame.
fn look_in<D: Disk>(
    log: &mut D,
    head: &[u8; 32],
    page_size: usize,
    frames: usize,
    buf: &mut [u8],
) -> io::Result<Look>
    requires usable { IsTrue (D.Disk.is_usable log.old) }
    requires head { IsClean D.Disk log.old → head.now ≡ header (D.Disk.seen log.old) }
    requires size { page_size ≤ 65536 }
    requires buf { length buf.old ≡ 24 + page_size }
    requires within { frame_at page_size frames < 2 ^ 64 }
    ensures value { IfOk result (λ look. IsClean D.Disk log.new
        → look ≡ look_to page_size (D.Disk.seen log.old) frames) }
    ensures faults { CountsFaultIf
        (IsClean D.Disk log.old → frame_at page_size frames ≤ length (D.Disk.seen log.old))
        result (D.Disk.faults log.old) (D.Disk.faults log.new) }
    ensures same { OnlyReads D.Disk log.old log.new }
{
    let mut walk = begin(head);
    for i in 0..frames {
        read_frame(log, page_size, i, buf)?;
        walk = advance(walk, buf);
    }
    Ok(shown(walk))
}

// Reads frame `i` into `buf`.
fn read_frame<D: Disk>(log: &mut D, page_size: usize, i: usize, buf: &mut [u8]) -> io::Result<()>
    requires usable { IsTrue (D.Disk.is_usable log.old) }
    requires buf { length buf.old ≡ 24 + page_size }
    requires within { frame_at page_size (i + 1) < 2 ^ 64 }
    ensures read { OnOk result (IsClean D.Disk log.new
        → buf.new ≡ frame page_size (D.Disk.seen log.old) i) }
    ensures faults { CountsFaultIf
        (IsClean D.Disk log.old → frame_at page_size (i + 1) ≤ length (D.Disk.seen log.old))
        result (D.Disk.faults log.old) (D.Disk.faults log.new) }
    ensures same { OnlyReads D.Disk log.old log.new }
{
    log.read_at(HEADER_LEN + i * (FRAME_HEADER_LEN + page_size), buf)?;
    Ok(())
}
