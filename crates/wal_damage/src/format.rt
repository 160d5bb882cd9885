//! Reads the header and the frames of a WAL.
ghost use Rattle.std.specs.Prelude.{◌≡◌, ◌+◌, ◌≤◌, length};
ghost use Rattle.sqlite_wal.specs.Format.{be32, stored_sum};
ghost use Rattle.wal_damage.specs.Damage.{is_header, is_magic, is_valid, salts_at, same_pair};

use sqlite_wal::checksum_of;

/// The length of the header of a WAL.
pub(crate) const HEADER_LEN: usize = 32;

/// The length of a frame without its page.
pub(crate) const FRAME_HEADER_LEN: usize = 24;

/// The page number of a count frame.
pub(crate) const COUNT_PAGE: u32 = 0xff00_0000;

/// The magic number of a WAL whose checksums read words with the lowest byte first.
const MAGIC_LITTLE: u32 = 0x377f_0682;

/// The magic number of a WAL whose checksums read words with the highest byte first.
const MAGIC_BIG: u32 = 0x377f_0683;

/// Two salts, or the two words of a checksum.
pub(crate) type Pair = (u32, u32);

// Returns the four bytes at offset `at` as a number, highest byte first.
pub(crate) fn be32_at(bytes: &[u8], at: usize) -> u32
    requires { at + 4 ≤ length bytes.now }
    ensures { result ≡ be32 bytes.now at }
{
    bytes[at] as u32 * 0x100_0000
        + bytes[at + 1] as u32 * 0x1_0000
        + bytes[at + 2] as u32 * 0x100
        + bytes[at + 3] as u32
}

// Returns the two words at offset `at`.
pub(crate) fn pair_at(bytes: &[u8], at: usize) -> Pair
    requires { at + 8 ≤ length bytes.now }
    ensures sum { result ≡ stored_sum bytes.now at }
    ensures salts { result ≡ salts_at bytes.now at }
{
    (be32_at(bytes, at), be32_at(bytes, at + 4))
}

fn same(a: Pair, b: Pair) -> bool
    ensures { result ≡ same_pair a b }
{
    a.0 == b.0 && a.1 == b.1
}

// Returns `true` if `word` is the magic number of a WAL.
fn is_magic(word: u32) -> bool
    ensures { result ≡ is_magic word }
{
    word == MAGIC_LITTLE || word == MAGIC_BIG
}

// Returns `true` if the header has the magic number and the right checksum.
pub(crate) fn is_header(head: &[u8; 32]) -> bool
    ensures { result ≡ is_header head.now }
{
    let sum = checksum_of(head[3] == 0x83, (0, 0), &head[..24]);
    let has_magic = is_magic(be32_at(head, 0));
    let has_sum = same(sum, pair_at(head, 24));
    has_magic && has_sum
}

// Returns `true` if the frame has the salts `salts`, a page number and the right checksum, which
// continues `before`.
pub(crate) fn is_valid(is_big: bool, salts: Pair, before: Pair, frame: &[u8]) -> bool
    requires { 24 ≤ length frame.now }
    ensures { result ≡ is_valid is_big salts before frame.now }
{
    let front = checksum_of(is_big, before, &frame[..8]);
    let sum = checksum_of(is_big, front, &frame[FRAME_HEADER_LEN..]);
    let has_salts = same(pair_at(frame, 8), salts);
    let has_page = be32_at(frame, 0) != 0;
    let has_sum = same(sum, pair_at(frame, 16));
    has_salts && has_page && has_sum
}
