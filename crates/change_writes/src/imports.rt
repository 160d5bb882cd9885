//! Imports a batch, in an open transaction. A crash before its commit leaves no trace of it.
ghost use Rattle.std.specs.Prelude.{◌≡◌, ◌<◌, ◌^◌, ◌++◌, ℕ, Bool, List, []};
ghost use Rattle.std.specs.Prelude.{IfOk, Ok, OnOk, bytes_eq, length, map};
ghost use Rattle.std.specs.List.{position_or_len};
ghost use Rattle.store_data.specs.Groups.{with_key};
ghost use Rattle.store_data.specs.declared.row.Row.{Row as RowValue};
ghost use Rattle.batch_import.specs.Batch.{coming_of, no_more};
ghost use Rattle.batch_import.specs.Rows.{TakesRow};
ghost use Rattle.sql_rows.specs.Image.{Moves};
ghost use Rattle.sql_rows.specs.Many.{WritesInParts, with_groupings, with_records};
ghost use Rattle.sql_rows.specs.Writes.{Writes};
ghost use Rattle.table_rows.specs.After.{batch_rows_after, rows_after};
ghost use Rattle.table_rows.specs.Tables.{with_grouping, with_record};
ghost use Rattle.table_rows.specs.declared.writing.Writing.TheVariants as writing;
ghost use Rattle.row_writes.specs.FileRows.{grouping_of, record_of};
ghost use Rattle.change_writes.specs.Imports.{AreOfFile, IsTaken, TakesRows};
ghost use Rattle.change_writes.specs.Imports.{record_if_new, with_file_rows, with_next};
ghost use Rattle.change_writes.specs.Refused.{refused};

use batch_import::{BatchRows, ImportFault, rows};
use indexmap::IndexSet;
use job_facts::NewBatch;
use row_writes::{
    FileRow, NewRecord, ROWS_AT_ONCE, add_batch, add_grouping, add_groupings, add_record,
    add_records, set_raw,
};
use sql_tables::{Runs, run_each};
use sqlite::{Alter, Error, ErrorCode, Transaction};
use std::alloc::Global;
use store_data::{Name, Product, Row};

/// The row number of the first data row. Row 1 is the header.
const FIRST_DATA_ROW: u32 = 2;

/// Writes a batch: its row, its records and its groupings.
///
/// The bytes of the file are set last, because SQLite reads the whole row of the batch for every
/// row that refers to it. After an error the caller must drop the transaction.
///
/// # Errors
///
/// - `InvalidQuery` if the file has a fault
/// - any error of the database, including out of memory
pub(crate) fn write_batch<S: Alter>(
    tx: &mut Transaction<'_, S>,
    alloc: Global,
    batch: &NewBatch<'_>,
) -> Result<usize, Error>
    requires { batch.now.number < 2 ^ 63 }
    ensures { Writes S.Store (rows_after (writing.AddsBatch batch.now))
        tx.old.conn tx.new.conn result }
{
    write_bare(tx, alloc, batch)?;
    set_raw(tx, batch.number, batch.raw)
}

// Writes a batch without the bytes of its file.
fn write_bare<S: Alter>(
    tx: &mut Transaction<'_, S>,
    alloc: Global,
    batch: &NewBatch<'_>,
) -> Result<(), Error>
    requires { batch.now.number < 2 ^ 63 }
    ensures { let b = batch.now in
        let rows = (coming_of b.product.check b.raw.now).rows in
        Writes S.Store (batch_rows_after b.number b.name b.product.code [] b.records rows)
        tx.old.conn tx.new.conn result }
{
    let number = batch.number;
    let product = &batch.product;
    add_batch(tx, number, &batch.name, &product.code, batch.records)?;
    add_rows(tx, alloc, number, product, batch.raw)
}

// Returns the error for a file that can't be imported.
fn refused(fault: ImportFault) -> Error
    ensures { result ≡ refused fault }
{
    match fault {
        ImportFault::Memory => Error::SqliteFailure(ErrorCode::OutOfMemory),
        ImportFault::At(_) => Error::InvalidQuery,
    }
}

// Adds the rows of a batch file.
fn add_rows<S: Alter>(
    tx: &mut Transaction<'_, S>,
    alloc: Global,
    batch: u64,
    product: &Product,
    raw: &[u8],
) -> Result<(), Error>
    requires { batch < 2 ^ 63 }
    ensures { let rows = (coming_of product.now.check raw.now).rows in
        WritesInParts S.Store (with_file_rows batch rows) tx.old.conn tx.new.conn result }
{
    let mut stream = rows(alloc, raw, product);
    let mut names = IndexSet::new(alloc);
    add_stream(tx, alloc, batch, &mut stream, &mut names)
}

// Adds all rows of `stream`, and their names to `names`. At most sixteen rows at a time are in
// memory. The prover is slow at a loop in the function that owns `stream`, because every exit of
// the loop drops it.
fn add_stream<S: Alter>(
    tx: &mut Transaction<'_, S>,
    alloc: Global,
    batch: u64,
    stream: &mut BatchRows<'_>,
    names: &mut IndexSet<Name>,
) -> Result<(), Error>
    requires batch { batch < 2 ^ 63 }
    requires start { (names.old.keys ≡ [])
        × ((check : Bool) × ((raw : List ℕ) × (stream.old ≡ Ok (coming_of check raw)))) }
    ensures { (check : Bool) (raw : List ℕ) → stream.old ≡ Ok (coming_of check raw)
        → WritesInParts S.Store (with_file_rows batch (coming_of check raw).rows)
        tx.old.conn tx.new.conn result }
{
    let mut line = FIRST_DATA_ROW;
    loop {
        let next = next_rows(stream, alloc, batch, names, line)?;
        if next.rows.is_empty() {
            return Ok(());
        }
        add_next(tx, alloc, &next)?;
        line += next.rows.len() as u32;
    }
}

// The next rows of a batch file.
#[derive(Drop)]
struct Next {
    rows: Vec<FileRow>,
    /// The records for the names that are new in these rows.
    records: Vec<NewRecord>,
}

// Returns the next rows of the file: sixteen, or fewer at the end of the file. `names` are the
// names of the records so far.
fn next_rows(
    stream: &mut BatchRows<'_>,
    alloc: Global,
    batch: u64,
    names: &mut IndexSet<Name>,
    line: u32,
) -> Result<Next, Error>
    requires batch { batch < 2 ^ 63 }
    requires taken { AreOfFile names.old.keys line stream.old }
    ensures rows { (check : Bool) (raw : List ℕ) (taken : List RowValue)
        → IsTaken check raw taken names.old.keys line stream.old
        → IfOk result (λ next. TakesRows check raw taken batch names.old.keys line
        next.rows.items next.records.items names.new.keys stream.new) }
    ensures last { IfOk result (λ next. length next.rows.items < 16 → stream.new ≡ Ok no_more) }
{
    let mut next = Next {
        rows: Vec::new(alloc),
        records: Vec::new(alloc),
    };
    while next.rows.len() < ROWS_AT_ONCE {
        let Some(row) = next_row(stream)? else {
            return Ok(next);
        };
        let line = line + next.rows.len() as u32;
        let place = place_of(names, &mut next.records, batch, &row.rec)?;
        next.rows.push(FileRow {
            batch,
            line,
            place,
            row,
        })?;
    }
    Ok(next)
}

// Returns the next row of the file, or `None` after the last one.
fn next_row(stream: &mut BatchRows<'_>) -> Result<Option<Row>, Error>
    ensures { IfOk result (λ row. TakesRow stream.old (Ok row) stream.new) }
{
    stream.next().map_err(refused)
}

// Returns the position of the record with this name. A new name is appended to `names`, and its
// record to `records`.
fn place_of(
    names: &mut IndexSet<Name>,
    records: &mut Vec<NewRecord>,
    batch: u64,
    name: &Name,
) -> Result<u32, Error>
    requires batch { batch < 2 ^ 63 }
    requires few { length names.old.keys < 4096 }
    ensures place { IfOk result (λ place.
        place ≡ position_or_len (bytes_eq name.now) names.old.keys) }
    ensures names { OnOk result (names.new.keys ≡ with_key names.old.keys name.now) }
    ensures records { OnOk result (map record_of records.new.items
        ≡ map record_of records.old.items ++ record_if_new batch names.old.keys name.now) }
{
    let (place, is_new) = names.insert_full(*name)?;
    let place = place as u32;
    if is_new {
        let name = *name;
        records.push(NewRecord { batch, place, name })?;
    }
    Ok(place)
}

// Adds the records for new names, and then the rows that refer to them.
fn add_next<S: Alter>(tx: &mut Transaction<'_, S>, alloc: Global, next: &Next) -> Result<(), Error>
    ensures { WritesInParts S.Store (with_next next.now.rows.items next.now.records.items)
        tx.old.conn tx.new.conn result }
{
    add_new_records(tx, alloc, &next.records)?;
    add_file_rows(tx, alloc, &next.rows)
}

// Adds records, with a single statement if there are exactly sixteen.
fn add_new_records<S: Alter>(
    tx: &mut Transaction<'_, S>,
    alloc: Global,
    records: &[NewRecord],
) -> Result<(), Error>
    ensures { WritesInParts S.Store (with_records (map record_of records.now))
        tx.old.conn tx.new.conn result }
{
    if records.len() == ROWS_AT_ONCE {
        add_records(tx, alloc, records)?;
        return Ok(());
    }
    run_each::<AddsEach, NewRecord, S>(tx, records)
}

// Adds rows of a file, with a single statement if there are exactly sixteen.
fn add_file_rows<S: Alter>(
    tx: &mut Transaction<'_, S>,
    alloc: Global,
    rows: &[FileRow],
) -> Result<(), Error>
    ensures { WritesInParts S.Store (with_groupings (map grouping_of rows.now))
        tx.old.conn tx.new.conn result }
{
    if rows.len() == ROWS_AT_ONCE {
        add_groupings(tx, alloc, rows)?;
        return Ok(());
    }
    run_each::<AddsEach, FileRow, S>(tx, rows)
}

// The statement that adds one row.
struct AddsEach;

impl Runs<NewRecord> for AddsEach {
    ghost makes = { λ it. Moves (with_record (record_of it)) };

    fn run<S: Alter>(tx: &mut Transaction<'_, S>, it: &NewRecord) -> Result<usize, Error> {
        add_record(tx, it)
    }
}

impl Runs<FileRow> for AddsEach {
    ghost makes = { λ it. Moves (with_grouping (grouping_of it)) };

    fn run<S: Alter>(tx: &mut Transaction<'_, S>, it: &FileRow) -> Result<usize, Error> {
        add_grouping(tx, it)
    }
}
