//! The statements that read the groupings of a record, with or without their bytes.
ghost use Rattle.std.specs.Prelude.{◌≡◌, ◌≤◌, ◌<◌, ◌^◌, false, filter, length, All, IfOk, IsOk};
ghost use Rattle.std.specs.Prelude.{map};
ghost use Rattle.sqlite.specs.Held.{state};
ghost use Rattle.sqlite.specs.Order.{column};
ghost use Rattle.row_reads.specs.CardDecoding.{IsCodedAt, IsGroupingAt, coded_at, coded_in};
ghost use Rattle.row_reads.specs.CardDecoding.{coded_line, grouping_at, grouping_in};
ghost use Rattle.row_reads.specs.CardDecoding.{is_of_segment, line_of};
ghost use Rattle.row_reads.specs.Decoding.{blob_in};
ghost use Rattle.row_reads.specs.Extremes.{AreSorted};
ghost use Rattle.row_reads.specs.Readable.{IsAidBlob, IsCodedAnswer, IsGroupingAnswer};
ghost use Rattle.row_reads.specs.Reads.{FindsRows};
ghost use Rattle.table_rows.specs.Keys.{is_grouping_at, is_grouping_of};

use crate::answered::{Answered, all_of};
use crate::values::{bytes_at, count, enc_of, flag_at, number_at, within_at};
use sql_base::{int, rows_of};
use sqlite::types::ValueRef;
use sqlite::{Alter, Connection, Error, Row};
use store_data::{Aid, Bytes, Enc};

/// A row of a batch file, without the name of its record and without the bytes of its grouping.
#[derive(Clone, Copy)]
pub struct GroupingAt {
    /// The number of the row in the file.
    pub line: u64,
    /// The application identifier.
    pub aid: Aid,
    /// The rank, 1 to 999. The ranks order the segments of an application.
    pub rank: u16,
    /// The encryption.
    pub enc: Enc,
    /// `true` if the card may return 6A88 after the last piece of the segment.
    pub tol: bool,
}

/// The bytes of a row of a batch file.
#[derive(Drop)]
pub struct CodedAt {
    /// The number of the row in the file.
    pub line: u64,
    /// The grouping in its shortest encoding, as it is sent (EMV CPS 1.1).
    pub coded: Bytes,
}

// Converts `bytes` to an application identifier, which must have 5 to 16 bytes.
fn aid_of(bytes: &[u8]) -> Result<Aid, Error>
    ensures value { IfOk result (λ aid. aid ≡ bytes.now) }
    ensures total { 5 ≤ length bytes.now → length bytes.now ≤ 16 → IsOk result }
{
    if bytes.len() < 5 || bytes.len() > 16 {
        return Err(Error::InvalidQuery);
    }
    Ok(Aid::new(bytes))
}

// Returns the application identifier in column `at`.
fn aid_at(row: &Row, at: usize) -> Result<Aid, Error>
    ensures value { IfOk result (λ aid. aid ≡ blob_in (column row.now at)) }
    ensures total { IsAidBlob (column row.now at) → IsOk result }
{
    match row.get_ref(at)? {
        ValueRef::Blob(bytes) => aid_of(bytes),
        _ => Err(Error::InvalidQuery),
    }
}

impl Answered for GroupingAt {
    ghost value = { grouping_in };

    ghost fits = { IsGroupingAt };

    ghost readable = { IsGroupingAnswer };

    fn read(row: &Row) -> Result<GroupingAt, Error> {
        Ok(GroupingAt {
            line: number_at(row, 0)?,
            aid: aid_at(row, 1)?,
            rank: within_at(row, 2, 1, 999)? as u16,
            enc: enc_of(number_at(row, 3)?)?,
            tol: flag_at(row, 4)?,
        })
    }
}

impl Answered for CodedAt {
    ghost value = { coded_in };

    ghost fits = { IsCodedAt };

    ghost readable = { IsCodedAnswer };

    fn read(row: &Row) -> Result<CodedAt, Error> {
        let line = number_at(row, 0)?;
        let coded = bytes_at(row, 1)?;
        Ok(CodedAt { line, coded })
    }
}

/// Returns the rows of the record at position `place` of the batch with the id `batch`, without the
/// bytes of their groupings, in the order of row numbers.
pub fn groupings_of<S: Alter>(
    conn: &mut Connection<S>,
    batch: u64,
    place: u64,
) -> Result<Vec<GroupingAt>, Error>
    requires idle { conn.old.in_transaction ≡ false }
    requires batch { batch < 2 ^ 63 }
    requires place { place < 2 ^ 63 }
    ensures finds { FindsRows (state S.Store conn.old) (state S.Store conn.new) result
        (λ t all. AreSorted line_of
        (map grouping_at (filter (is_grouping_at batch place) t.groupings)) all.items) }
    ensures ranged { IfOk result (λ all. All IsGroupingAt all.items) }
{
    let sql = "SELECT line, aid, rank, enc, tol FROM grouping2 WHERE batch = ?1 AND place = ?2 \
        ORDER BY line";
    all_of(conn, sql, &[int(batch), int(place)])
}

/// Returns the bytes of the rows of one segment, in the order of row numbers. It is the segment
/// with the application identifier `aid` and the rank `rank` of the record at position `place` of
/// the batch with the id `batch`.
pub fn coded_of<S: Alter>(
    conn: &mut Connection<S>,
    batch: u64,
    place: u64,
    aid: &Aid,
    rank: u16,
) -> Result<Vec<CodedAt>, Error>
    requires idle { conn.old.in_transaction ≡ false }
    requires batch { batch < 2 ^ 63 }
    requires place { place < 2 ^ 63 }
    ensures finds { FindsRows (state S.Store conn.old) (state S.Store conn.new) result
        (λ t all. AreSorted coded_line
        (map coded_at (filter (is_of_segment batch place aid.now rank) t.groupings)) all.items) }
    ensures ranged { IfOk result (λ all. All IsCodedAt all.items) }
{
    let sql = "SELECT line, coded FROM grouping2 WHERE batch = ?1 AND place = ?2 AND aid = ?3 \
        AND rank = ?4 ORDER BY line";
    all_of(
        conn,
        sql,
        &[
            int(batch),
            int(place),
            ValueRef::Blob(aid.bytes()),
            int(u64::from(rank)),
        ],
    )
}

/// Returns the number of rows of the batch with the id `batch`.
pub fn grouping_count<S: Alter>(conn: &mut Connection<S>, batch: u64) -> Result<u64, Error>
    requires idle { conn.old.in_transaction ≡ false }
    requires batch { batch < 2 ^ 63 }
    ensures { FindsRows (state S.Store conn.old) (state S.Store conn.new) result
        (λ t counted. counted ≡ length (filter (is_grouping_of batch) t.groupings)) }
{
    let rows = rows_of(
        conn,
        "SELECT line FROM grouping2 WHERE batch = ?1",
        &[int(batch)],
    )?;
    Ok(count(rows.as_slice()))
}
