//! Checks a batch with its file, records, groupings and sessions.
ghost use Rattle.std.specs.Prelude.{◌≡◌, ◌↔◌, ◌<◌, IfOk, IfSome, IsTrue, All, Some, None, true};
ghost use Rattle.std.specs.Prelude.{filter, find, map};
ghost use Rattle.std.specs.List.Sorted.{IsNonDecreasingBy};
ghost use Rattle.store_data.specs.Name.{is_name};
ghost use Rattle.store_data.specs.Sequence.{IsProduct};
ghost use Rattle.job_facts.specs.States.{product_named};
ghost use Rattle.table_rows.specs.Tables.{StoredSession as SessionValue};
ghost use Rattle.table_rows.specs.Keys.{is_batch, is_grouping_of, is_record_of};
ghost use Rattle.audit_laws.specs.Audited.{is_session_of, key_of};
ghost use Rattle.audit_order.specs.Order.{AreReady};
ghost use Rattle.audit_cards.specs.Files.{HasFile, IsFileOf, IsUnread, groupings_in, keys_of};
ghost use Rattle.audit_cards.specs.Files.{names_in};
ghost use Rattle.audit_cards.specs.Sessions.{AreByRecord, IsAuditedFile, IsAuditedWith};

use crate::by_record::{SessionRef, sessions_at};
use crate::counts::counts_by;
use crate::files::{are_groupings, are_records, names_of};
use crate::records::{AuditedBatch, is_audited_record};
use audit_order::{is_name, product_named, range_of};
use batch_import::{ImportFault, read_batch};
use std::alloc::{AllocError, Global};
use store_data::{Name, Product, Row, grouped};
use table_rows::{StoredBatch, StoredGrouping, StoredRecord, Tables};

fn is_named(batch: &StoredBatch) -> bool
    ensures { result ≡ is_name batch.now.name }
{
    is_name(&batch.name)
}

// Returns the product of `batch`.
fn product_for(tables: &Tables, batch: &StoredBatch) -> Option<Product>
    requires { AreReady tables.now }
    ensures value { result ≡ product_named tables.now.products batch.now.product }
    ensures ranged { IfSome result IsProduct }
{
    product_named(&tables.products, &batch.product)
}

fn records_of<'a>(tables: &'a Tables, batch: &StoredBatch) -> &'a [StoredRecord]
    requires { AreReady tables.now }
    ensures { result.now ≡ filter (is_record_of batch.now.id) tables.now.records }
{
    range_of(&tables.records, batch.id)
}

fn sessions_of<'a, 'b>(by_record: &'b [SessionRef<'a>], batch: &StoredBatch) -> &'b [SessionRef<'a>]
    requires { IsNonDecreasingBy (λ (s : SessionValue). s.batch) by_record.now }
    ensures { result.now ≡ filter (is_session_of batch.now.id) by_record.now }
{
    range_of(by_record, batch.id)
}

// Returns `true` if `records` are the rows of records with these names, in this order.
fn has_records(batch: &StoredBatch, records: &[StoredRecord], names: &[Name]) -> bool
    ensures { IsTrue result ↔ (map key_of records.now ≡ keys_of batch.now.id names.now) }
{
    are_records(records, batch.id, names)
}

fn groupings_of<'a>(tables: &'a Tables, batch: &StoredBatch) -> &'a [StoredGrouping]
    requires { AreReady tables.now }
    ensures { result.now ≡ filter (is_grouping_of batch.now.id) tables.now.groupings }
{
    range_of(&tables.groupings, batch.id)
}

// Returns `true` if `groupings` are the rows of `grouping2` for `rows`, the rows of the batch file.
// `names` are the names of its records.
fn has_groupings(
    batch: &StoredBatch,
    groupings: &[StoredGrouping],
    rows: &[Row],
    names: &[Name],
) -> bool
    requires { names.now ≡ names_in rows.now }
    ensures { IsTrue result ↔ (groupings.now ≡ groupings_in batch.now.id rows.now) }
{
    are_groupings(groupings, batch.id, rows, names)
}

// Returns the rows of the batch file, or `None` if it has a fault under `product`.
fn file_rows(
    alloc: Global,
    product: &Product,
    batch: &StoredBatch,
) -> Result<Option<Vec<Row>>, AllocError>
    requires { IsProduct product.now }
    ensures some { IfOk result
        (λ read. IfSome read (λ rows. IsFileOf product.now batch.now.raw rows.items)) }
    ensures none { IfOk result
        (λ read. read ≡ None → IsUnread product.now batch.now.raw) }
{
    match read_batch(alloc, batch.raw.as_slice(), product) {
        Ok(read) => Ok(Some(read.rows)),
        Err(ImportFault::At(_)) => Ok(None),
        Err(ImportFault::Memory) => Err(AllocError),
    }
}

// Returns `true` if the batch has a record for each of its sessions. Only the last session is
// tested, because they are sorted by place.
fn are_placed(sessions: &[SessionRef<'_>], records: usize) -> bool
    requires { IsNonDecreasingBy (λ (s : SessionValue). s.place) sessions.now }
    ensures { IsTrue result ↔ All (λ (s : SessionValue). s.place < records) sessions.now }
{
    match sessions.last() {
        None => true,
        Some(last) => last.place() < records as u64,
    }
}

// Returns `true` if all records of the batch and all their sessions obey the audit rules. `groups`
// has one list of rows for each record.
fn are_audited(
    alloc: Global,
    audited: &AuditedBatch<'_>,
    groups: &[Vec<Row>],
    records: &[StoredRecord],
    sessions: &[SessionRef<'_>],
) -> Result<bool, AllocError>
    requires ready { AreReady audited.now.tables.now }
    requires file { HasFile audited.now.tables.now audited.now.batch.now audited.now.product.now
        (map (λ group. group.items) groups.now) records.now sessions.now }
    ensures { IfOk result
        (λ sound. IsTrue sound ↔ All (IsAuditedWith audited.now.tables.now) records.now) }
{
    for place in 0..records.len() {
        let own = sessions_at(sessions, place as u64);
        let (rows, stored) = (&groups[place], &records[place]);
        if !is_audited_record(alloc, audited, rows, stored, own)? {
            return Ok(false);
        }
    }
    Ok(true)
}

// Returns `true` if the batch obeys the audit rules, together with its records, groupings and
// sessions. `rows` are the rows of its file.
fn has_file(
    alloc: Global,
    audited: &AuditedBatch<'_>,
    by_record: &[SessionRef<'_>],
    rows: Vec<Row>,
) -> Result<bool, AllocError>
    requires ready { AreReady audited.now.tables.now }
    requires sessions { AreByRecord audited.now.tables.now.sessions by_record.now }
    requires named { is_name audited.now.batch.now.name ≡ true }
    requires batch { find (is_batch audited.now.batch.now.id) audited.now.tables.now.batches
        ≡ Some audited.now.batch.now }
    requires product { product_named audited.now.tables.now.products audited.now.batch.now.product
        ≡ Some audited.now.product.now }
    requires ranged { IsProduct audited.now.product.now }
    requires file { IsFileOf audited.now.product.now audited.now.batch.now.raw rows.items }
    ensures { IfOk result
        (λ sound. IsTrue sound ↔ IsAuditedFile audited.now.tables.now audited.now.batch.now) }
{
    let (tables, batch) = (audited.tables, audited.batch);
    let names = names_of(alloc, &rows)?;
    let records = records_of(tables, batch);
    if !has_records(batch, records, &names) {
        return Ok(false);
    }
    let groupings = groupings_of(tables, batch);
    if !has_groupings(batch, groupings, &rows, &names) {
        return Ok(false);
    }
    let sessions = sessions_of(by_record, batch);
    if !counts_by(batch, records, sessions) {
        return Ok(false);
    }
    if !are_placed(sessions, records.len()) {
        return Ok(false);
    }
    let groups = grouped(alloc, rows)?;
    are_audited(alloc, audited, &groups, records, sessions)
}

// Returns `true` if the file of `batch` has no fault under `product`, and `has_file` returns `true`
// for its rows.
fn is_audited_under(
    alloc: Global,
    tables: &Tables,
    by_record: &[SessionRef<'_>],
    batch: &StoredBatch,
    product: &Product,
) -> Result<bool, AllocError>
    requires ready { AreReady tables.now }
    requires sessions { AreByRecord tables.now.sessions by_record.now }
    requires named { is_name batch.now.name ≡ true }
    requires batch { find (is_batch batch.now.id) tables.now.batches ≡ Some batch.now }
    requires product { product_named tables.now.products batch.now.product ≡ Some product.now }
    requires ranged { IsProduct product.now }
    ensures { IfOk result (λ sound. IsTrue sound ↔ IsAuditedFile tables.now batch.now) }
{
    let read = file_rows(alloc, product, batch)?;
    match read {
        None => Ok(false),
        Some(rows) => {
            let audited = AuditedBatch {
                tables,
                batch,
                product,
            };
            has_file(alloc, &audited, by_record, rows)
        }
    }
}

/// Returns `true` if `batch` obeys the audit rules, together with its file, records, groupings and
/// sessions.
///
/// # Errors
///
/// Returns `AllocError` if an allocation fails.
pub(crate) fn is_audited_file(
    alloc: Global,
    tables: &Tables,
    by_record: &[SessionRef<'_>],
    batch: &StoredBatch,
) -> Result<bool, AllocError>
    requires ready { AreReady tables.now }
    requires sessions { AreByRecord tables.now.sessions by_record.now }
    requires batch { find (is_batch batch.now.id) tables.now.batches ≡ Some batch.now }
    ensures { IfOk result (λ sound. IsTrue sound ↔ IsAuditedFile tables.now batch.now) }
{
    if !is_named(batch) {
        return Ok(false);
    }
    match product_for(tables, batch) {
        None => Ok(false),
        Some(product) => is_audited_under(alloc, tables, by_record, batch, &product),
    }
}
