//! The WAL of a run with one flipped bit: the commits that start after it are counted as lost.
use crate::runs::{Left, NO_FAULTS, run_over};
use std::alloc::{AllocError, Global};
use std::process::Abort;
use std::test::Fail;

// The sizes of the header of the WAL and of a frame, in bytes.
const HEADER_LEN: usize = 32;

const FRAME_LEN: usize = 24 + 4096;

// The page number of the frame that starts a counted commit.
const COUNT_PAGE: [u8; 4] = [0xff, 0, 0, 0];

// Returns the frames of a WAL up to the last commit.
fn frames_of(alloc: Global, log: &[u8]) -> Result<Vec<&[u8]>, AllocError> {
    let mut frames = Vec::new(alloc);
    for frame in log.get(HEADER_LEN..).unwrap_or(&[]).chunks_exact(FRAME_LEN) {
        if frame.starts_with([0; 4].as_slice()) {
            break;
        }
        frames.push(frame)?;
    }
    Ok(frames)
}

// Returns the number of counted commits that start in the frames from `place` on.
fn commits_from(frames: &[&[u8]], place: usize) -> u64 {
    let mut count = 0u64;
    for frame in frames.get(place..).unwrap_or(&[]) {
        if frame.starts_with(COUNT_PAGE.as_slice()) {
            count = count.saturating_add(1);
        }
    }
    count
}

// Returns the number of lost commits if a bit of byte `at` of the WAL is flipped.
fn lost_after_flip(alloc: Global, left: &mut Left, at: usize) -> Result<u64, Fail> {
    if let Some(byte) = left.log.get_mut(at) {
        *byte ^= 1;
    }
    let look = left.look(alloc)?;
    if let Some(byte) = left.log.get_mut(at) {
        *byte ^= 1;
    }
    Ok(look.lost)
}

// A bit of the header of each frame is flipped, and one of its page.
#[test]
fn a_flip_loses_the_commits_after_it(rt: HostRuntime) -> Result<(), Fail> {
    let alloc = rt.alloc();
    let ended = run_over(alloc, &Left::nothing(alloc), NO_FAULTS)?;
    let mut left = ended.left(alloc, 4, 0)?;
    let log = left.log.to_vec(alloc)?;
    let frames = frames_of(alloc, &log)?;
    let all = commits_from(&frames, 0);
    assert!(rt; ended.is_done && all > 1, "{all}");
    assert!(rt; left.db.len() > 4096, "no checkpoint");
    assert_eq!(rt; lost_after_flip(alloc, &mut left, 17)?, all);
    for place in 0..frames.len() {
        let start = place.saturating_mul(FRAME_LEN).saturating_add(HEADER_LEN);
        let wanted = commits_from(&frames, place.saturating_add(1));
        for offset in [place % 16, 24] {
            let at = start.saturating_add(offset);
            assert_eq!(rt; lost_after_flip(alloc, &mut left, at)?, wanted, "{at}");
        }
    }
    Ok(())
}
