//! Scans the frames of a WAL.
ghost use Rattle.std.specs.Prelude.{◌≡◌, ◌+◌, ◌<◌, ◌≤◌, ◌^◌, length};
ghost use Rattle.wal_damage.specs.Walks.{advanced, begun, shown};

use crate::format::{COUNT_PAGE, Pair, be32_at, is_header, is_valid, pair_at};
use crate::look::Look;

/// The state of the scan after the header and some frames.
#[derive(Clone, Copy)]
pub(crate) struct Walk {
    /// `true` if the header is valid.
    pub(crate) has_header: bool,
    /// `true` if the checksums read words with the highest byte first.
    pub(crate) is_big: bool,
    /// The salts that the next frame must have.
    pub(crate) salts: Pair,
    /// The checksum that the next frame continues.
    pub(crate) sum: Pair,
    /// `true` if the last frame commits.
    pub(crate) commits: bool,
    /// `true` if the header and all frames are valid.
    pub(crate) is_whole: bool,
    /// The number of counted commits that started after a break.
    pub(crate) lost: u64,
    /// `true` if the last frame is valid, after a break, and commits.
    pub(crate) commits_behind: bool,
    /// `true` if a valid frame continued such a frame.
    pub(crate) goes_on: bool,
    /// `true` if a frame has the page number of a count frame.
    pub(crate) has_count: bool,
    /// `true` if the first salt byte of the frame at the break is 0.
    pub(crate) is_shut: bool,
}

// Returns the state before the first frame, with the header `head`.
pub(crate) fn begin(head: &[u8; 32]) -> Walk
    ensures { result ≡ begun head.now }
{
    let has_header = is_header(head);
    Walk {
        has_header,
        is_big: has_header && head[3] == 0x83,
        salts: pair_at(head, 16),
        sum: pair_at(head, 24),
        commits: false,
        is_whole: has_header,
        lost: 0,
        commits_behind: false,
        goes_on: false,
        has_count: false,
        is_shut: false,
    }
}

// Returns the state after one more frame.
pub(crate) fn advance(walk: Walk, frame: &[u8]) -> Walk
    requires frame { 24 ≤ length frame.now }
    requires room { walk.lost + 1 < 2 ^ 64 }
    ensures { result ≡ advanced walk frame.now }
{
    let valid = is_valid(walk.is_big, walk.salts, walk.sum, frame);
    let is_count = be32_at(frame, 0) == COUNT_PAGE;
    let commits = be32_at(frame, 4) != 0;
    let is_behind = !walk.is_whole && valid;
    let is_break = walk.is_whole && !valid;
    let is_lost = !walk.is_whole && walk.commits && valid && is_count;
    Walk {
        has_header: walk.has_header,
        is_big: walk.is_big,
        salts: if walk.has_header {
            walk.salts
        } else {
            pair_at(frame, 8)
        },
        sum: pair_at(frame, 16),
        commits,
        is_whole: walk.is_whole && valid,
        lost: if is_lost { walk.lost + 1 } else { walk.lost },
        commits_behind: is_behind && commits,
        goes_on: walk.goes_on || (is_behind && walk.commits_behind),
        has_count: walk.has_count || is_count,
        is_shut: if is_break {
            frame[8] == 0
        } else {
            walk.is_shut
        },
    }
}

// Returns the result for the frames that were read.
pub(crate) fn shown(walk: Walk) -> Look
    ensures { result ≡ shown walk }
{
    Look {
        lost: walk.lost,
        is_suspect: walk.goes_on && !walk.has_count && !walk.is_shut,
    }
}
