//! Inserts the records and rows of a batch file, one or sixteen per statement. One statement for
//! sixteen rows is faster than sixteen statements. A crash before the commit leaves no trace of
//! them.
ghost use Rattle.std.specs.Prelude.{◌≡◌, IfOk, length, map};
ghost use Rattle.std.specs.List.{flat_map};
ghost use Rattle.sqlite.specs.Values.{bound};
ghost use Rattle.sql_rows.specs.Encoding.{grouping_row, record_row};
ghost use Rattle.sql_rows.specs.Many.{with_groupings, with_records};
ghost use Rattle.sql_rows.specs.Writes.{Writes};
ghost use Rattle.table_rows.specs.Tables.{with_grouping, with_record};
ghost use Rattle.row_writes.specs.FileRows.{grouping_of, record_of};

use crate::batches::enc_code;
use crate::new_rows::{FileRow, NewRecord};
use sql_base::int;
use sqlite::types::ValueRef;
use sqlite::{Alter, Error, Transaction};
use std::alloc::{AllocError, Global};

/// The number of rows that `add_records` and `add_groupings` add.
pub const ROWS_AT_ONCE: usize = 16;

// Returns the values of a record, in the order of the columns.
fn record_values(it: &NewRecord) -> [ValueRef<'_>; 6]
    ensures { bound result ≡ record_row (record_of it.now) }
{
    [
        int(it.batch),
        int(u64::from(it.place)),
        ValueRef::Text(it.name.bytes()),
        int(0),
        int(0),
        int(0),
    ]
}

// Returns the values of a row of a batch file, in the order of the columns.
fn grouping_values(it: &FileRow) -> [ValueRef<'_>; 8]
    ensures { bound result ≡ grouping_row (grouping_of it.now) }
{
    [
        int(it.batch),
        int(u64::from(it.line)),
        int(u64::from(it.place)),
        ValueRef::Blob(it.row.aid.bytes()),
        int(u64::from(it.row.rank)),
        int(enc_code(it.row.enc)),
        int(u64::from(it.row.tol)),
        ValueRef::Blob(it.row.coded.as_slice()),
    ]
}

// Returns the values of all records, one after the other.
fn all_record_values(alloc: Global, records: &[NewRecord]) -> Result<Vec<ValueRef<'_>>, AllocError>
    ensures { IfOk result (λ values.
        bound values.items ≡ flat_map record_row (map record_of records.now)) }
{
    let mut values = Vec::new(alloc);
    for record in records {
        values.extend_from_slice(&record_values(record))?;
    }
    Ok(values)
}

// Returns the values of all rows, one after the other.
fn all_grouping_values(alloc: Global, rows: &[FileRow]) -> Result<Vec<ValueRef<'_>>, AllocError>
    ensures { IfOk result (λ values.
        bound values.items ≡ flat_map grouping_row (map grouping_of rows.now)) }
{
    let mut values = Vec::new(alloc);
    for row in rows {
        values.extend_from_slice(&grouping_values(row))?;
    }
    Ok(values)
}

/// Adds a waiting record.
pub fn add_record<S: Alter>(tx: &mut Transaction<'_, S>, it: &NewRecord) -> Result<usize, Error>
    ensures { Writes S.Store (with_record (record_of it.now)) tx.old.conn tx.new.conn result }
{
    tx.execute(
        "INSERT INTO record (batch, place, name, state, spoiled, remakes) \
        VALUES (?,?,?,?,?,?)",
        &record_values(it),
    )
}

/// Adds sixteen waiting records.
pub fn add_records<S: Alter>(
    tx: &mut Transaction<'_, S>,
    alloc: Global,
    records: &[NewRecord],
) -> Result<usize, Error>
    requires { length records.now ≡ 16 }
    ensures { Writes S.Store (with_records (map record_of records.now))
        tx.old.conn tx.new.conn result }
{
    let values = all_record_values(alloc, records)?;
    tx.execute(
        "INSERT INTO record (batch, place, name, state, spoiled, remakes) VALUES \
        (?,?,?,?,?,?), (?,?,?,?,?,?), (?,?,?,?,?,?), (?,?,?,?,?,?), \
        (?,?,?,?,?,?), (?,?,?,?,?,?), (?,?,?,?,?,?), (?,?,?,?,?,?), \
        (?,?,?,?,?,?), (?,?,?,?,?,?), (?,?,?,?,?,?), (?,?,?,?,?,?), \
        (?,?,?,?,?,?), (?,?,?,?,?,?), (?,?,?,?,?,?), (?,?,?,?,?,?)",
        &values,
    )
}

/// Adds a row of a batch file.
pub fn add_grouping<S: Alter>(tx: &mut Transaction<'_, S>, row: &FileRow) -> Result<usize, Error>
    ensures { Writes S.Store (with_grouping (grouping_of row.now)) tx.old.conn tx.new.conn result }
{
    tx.execute(
        "INSERT INTO grouping2 (batch, line, place, aid, rank, enc, tol, coded) \
        VALUES (?,?,?,?,?,?,?,?)",
        &grouping_values(row),
    )
}

/// Adds sixteen rows of a batch file.
pub fn add_groupings<S: Alter>(
    tx: &mut Transaction<'_, S>,
    alloc: Global,
    rows: &[FileRow],
) -> Result<usize, Error>
    requires { length rows.now ≡ 16 }
    ensures { Writes S.Store (with_groupings (map grouping_of rows.now))
        tx.old.conn tx.new.conn result }
{
    let values = all_grouping_values(alloc, rows)?;
    tx.execute(
        "INSERT INTO grouping2 (batch, line, place, aid, rank, enc, tol, coded) VALUES \
        (?,?,?,?,?,?,?,?), (?,?,?,?,?,?,?,?), (?,?,?,?,?,?,?,?), (?,?,?,?,?,?,?,?), \
        (?,?,?,?,?,?,?,?), (?,?,?,?,?,?,?,?), (?,?,?,?,?,?,?,?), (?,?,?,?,?,?,?,?), \
        (?,?,?,?,?,?,?,?), (?,?,?,?,?,?,?,?), (?,?,?,?,?,?,?,?), (?,?,?,?,?,?,?,?), \
        (?,?,?,?,?,?,?,?), (?,?,?,?,?,?,?,?), (?,?,?,?,?,?,?,?), (?,?,?,?,?,?,?,?)",
        &values,
    )
}
