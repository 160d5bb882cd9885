//! The statements that read the table `record`.
ghost use Rattle.std.specs.Prelude.{◌≡◌, ◌<◌, ◌^◌, false, filter, find, option_map, All, IfOk};
ghost use Rattle.std.specs.Prelude.{IfSome, map};
ghost use Rattle.sqlite.specs.Held.{state};
ghost use Rattle.row_reads.specs.CardDecoding.{IsRecordAt, place_of, record_at, record_in};
ghost use Rattle.row_reads.specs.Extremes.{AreSorted, IsLeastBy};
ghost use Rattle.row_reads.specs.Readable.{IsRecordAnswer};
ghost use Rattle.row_reads.specs.Reads.{FindsRows};
ghost use Rattle.table_rows.specs.Keys.{is_record_at, is_record_named, is_record_of, is_waiting_of};
ghost use Rattle.table_rows.specs.Tables.{PassesOnce};

use crate::answered::{Answered, all_of, one_of};
use crate::values::{name_at, number_at, record_state};
use job_facts::RecordState;
use sql_base::int;
use sqlite::types::ValueRef;
use sqlite::{Alter, Connection, Error, Row};
use store_data::Name;

/// A record of a batch with its state.
#[derive(Clone, Copy)]
pub struct RecordAt {
    /// The position of the record in its batch, from 0.
    pub place: u64,
    /// The name of the record.
    pub name: Name,
    /// The state of the record.
    pub stands: RecordState,
    /// The number of spoiled sessions of the record.
    pub spoiled: u64,
    /// The number of remakes of the record.
    pub remakes: u64,
}

impl Answered for RecordAt {
    ghost value = { record_in };

    ghost fits = { IsRecordAt };

    ghost readable = { IsRecordAnswer };

    fn read(row: &Row) -> Result<RecordAt, Error> {
        Ok(RecordAt {
            place: number_at(row, 0)?,
            name: name_at(row, 1)?,
            stands: record_state(number_at(row, 2)?)?,
            spoiled: number_at(row, 3)?,
            remakes: number_at(row, 4)?,
        })
    }
}

/// Returns the record with the name `name` in the batch with the id `batch`.
pub fn record_named<S: Alter>(
    conn: &mut Connection<S>,
    batch: u64,
    name: &Name,
) -> Result<Option<RecordAt>, Error>
    requires idle { conn.old.in_transaction ≡ false }
    requires batch { batch < 2 ^ 63 }
    ensures finds { FindsRows (state S.Store conn.old) (state S.Store conn.new) result
        (λ t found. PassesOnce (is_record_named batch name.now) t.records
        → found ≡ option_map record_at (find (is_record_named batch name.now) t.records)) }
    ensures ranged { IfOk result (λ found. IfSome found IsRecordAt) }
{
    let sql =
        "SELECT place, name, state, spoiled, remakes FROM record WHERE batch = ?1 AND name = ?2";
    one_of(conn, sql, &[int(batch), ValueRef::Text(name.bytes())])
}

/// Returns the record at position `place` of the batch with the id `batch`.
pub fn record_at<S: Alter>(
    conn: &mut Connection<S>,
    batch: u64,
    place: u64,
) -> Result<Option<RecordAt>, Error>
    requires idle { conn.old.in_transaction ≡ false }
    requires batch { batch < 2 ^ 63 }
    requires place { place < 2 ^ 63 }
    ensures finds { FindsRows (state S.Store conn.old) (state S.Store conn.new) result
        (λ t found. PassesOnce (is_record_at batch place) t.records
        → found ≡ option_map record_at (find (is_record_at batch place) t.records)) }
    ensures ranged { IfOk result (λ found. IfSome found IsRecordAt) }
{
    let sql =
        "SELECT place, name, state, spoiled, remakes FROM record WHERE batch = ?1 AND place = ?2";
    one_of(conn, sql, &[int(batch), int(place)])
}

/// Returns the records of the batch with the id `batch`, in the order of their positions.
pub fn records_of<S: Alter>(conn: &mut Connection<S>, batch: u64) -> Result<Vec<RecordAt>, Error>
    requires idle { conn.old.in_transaction ≡ false }
    requires batch { batch < 2 ^ 63 }
    ensures finds { FindsRows (state S.Store conn.old) (state S.Store conn.new) result
        (λ t all.
        AreSorted place_of (map record_at (filter (is_record_of batch) t.records)) all.items) }
    ensures ranged { IfOk result (λ all. All IsRecordAt all.items) }
{
    let sql =
        "SELECT place, name, state, spoiled, remakes FROM record WHERE batch = ?1 ORDER BY place";
    all_of(conn, sql, &[int(batch)])
}

/// Returns the first waiting record of the batch with the id `batch`, which is the one with the
/// lowest position.
pub fn first_waiting<S: Alter>(
    conn: &mut Connection<S>,
    batch: u64,
) -> Result<Option<RecordAt>, Error>
    requires idle { conn.old.in_transaction ≡ false }
    requires batch { batch < 2 ^ 63 }
    ensures finds { FindsRows (state S.Store conn.old) (state S.Store conn.new) result
        (λ t found.
        IsLeastBy place_of (map record_at (filter (is_waiting_of batch) t.records)) found) }
    ensures ranged { IfOk result (λ found. IfSome found IsRecordAt) }
{
    let sql = "SELECT place, name, state, spoiled, remakes FROM record WHERE batch = ?1 \
        AND state = 0 ORDER BY place LIMIT 1";
    one_of(conn, sql, &[int(batch)])
}
