//! The rows that an import adds for its batch: records, and the rows of the batch file.
ghost use Rattle.std.specs.Prelude.{◌<◌, ◌^◌};

use store_data::{Name, Row};

/// A waiting record at position `place` of the batch with id `batch`.
#[derive(Clone, Copy)]
pub struct NewRecord {
    pub batch: u64,
    pub place: u32,
    pub name: Name,
    ghost batch_in_range: { batch < 2 ^ 63 },
}

/// A row of a batch file, with its row number `line`, for the record at position `place` of the
/// batch with id `batch`.
#[derive(Drop)]
pub struct FileRow {
    pub batch: u64,
    pub line: u32,
    pub place: u32,
    pub row: Row,
    ghost batch_in_range: { batch < 2 ^ 63 },
}
