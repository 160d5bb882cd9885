//! A WAL that SQLite's library wrote, with a flipped bit. It is suspect if two commits follow the
//! flip, but none of them counts as lost.
use crate::runs::Left;
use std::alloc::{AllocError, Global};
use std::test::Fail;

// SQLite 3.40.1 wrote the bytes in these constants: four commits of `PRAGMA user_version = n`, for
// `n` from 1 to 4, in a database of one page of 512 bytes. A commit has one frame.
const HEADER: &[u8] = b"\x37\x7f\x06\x82\x00\x2d\xe2\x18\x00\x00\x02\x00\x00\x00\x00\x00\
    \x88\x74\x43\x56\x6d\xaa\x1e\xbb\x2b\x0e\x77\x9b\x9e\x06\xf9\xad";

// The first 16 bytes of each frame: its page number, the size of the database, and the salts.
const FRAME: &[u8] = b"\x00\x00\x00\x01\x00\x00\x00\x01\x88\x74\x43\x56\x6d\xaa\x1e\xbb";

const SUMS: [&[u8]; 4] = [
    b"\x2e\xb3\xea\x7b\x49\xe3\x74\xe0",
    b"\x2d\x42\x41\x80\xa9\xa7\xf3\x4b",
    b"\x23\xc4\xe4\xb7\x6a\x06\x67\xd1",
    b"\x67\xfd\xa2\xaf\xad\x4d\x5f\x68",
];

// The page before `n`, which is at byte 60.
const PAGE: &[u8] = b"SQLite format 3\0\x02\x00\x02\x02\x00\x40\x20\x20\x00\x00\x00\x02\
    \x00\x00\x00\x01";

// The page from byte 92 on.
const PAGE_END: &[u8] = b"\x00\x00\x00\x02\x00\x2e\x63\x01\x0d\x00\x00\x00\x00\x02";

const FRAME_LEN: usize = 536;

fn page_of(alloc: Global, n: u8) -> Result<Vec<u8>, AllocError> {
    let mut page = PAGE.to_vec(alloc)?;
    page.resize(60, 0)?;
    page.extend_from_slice([0, 0, 0, n].as_slice())?;
    page.resize(92, 0)?;
    page.extend_from_slice(PAGE_END)?;
    page.resize(512, 0)?;
    Ok(page)
}

// Returns the WAL with a flipped bit at byte `at`, if it has this byte.
fn wal_with_flip(alloc: Global, at: usize) -> Result<Vec<u8>, AllocError> {
    let mut wal = HEADER.to_vec(alloc)?;
    let mut n = 0u8;
    for sum in SUMS {
        n = n.saturating_add(1);
        wal.extend_from_slice(FRAME)?;
        wal.extend_from_slice(sum)?;
        wal.extend_from_slice(page_of(alloc, n)?.as_slice())?;
    }
    if let Some(byte) = wal.get_mut(at) {
        *byte ^= 1;
    }
    Ok(wal)
}

#[test]
fn a_flip_in_a_wal_of_another_program_is_only_suspect(rt: HostRuntime) -> Result<(), Fail> {
    let alloc = rt.alloc();
    for place in 0..=SUMS.len() {
        let at = place.saturating_mul(FRAME_LEN).saturating_add(100);
        let left = Left {
            log: wal_with_flip(alloc, at)?,
            db: page_of(alloc, 0)?,
        };
        let look = left.look(alloc)?;
        assert_eq!(rt; look.lost, 0, "{place}");
        assert_eq!(rt; look.is_suspect, place < 2, "{place}");
    }
    Ok(())
}
