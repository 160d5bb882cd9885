//! Reads batch files: the rows of a batch, its records, and their plans.
ghost use Rattle.std.specs.Prelude.{◌≡◌, ◌≤◌, All, IfErr, IfOk, bytes_eq, length, map};
ghost use Rattle.std.specs.List.{list_any};
ghost use Rattle.store_data.specs.Groups.{first_appearances};
ghost use Rattle.store_data.specs.Sequence.{IsProduct, IsRow};
ghost use Rattle.store_data.specs.declared.row.Row.{Row as RowValue};
ghost use Rattle.batch_import.specs.Batch.{batch_of};
ghost use Rattle.batch_import.specs.SoundRecords.{AreSoundRecords};
ghost use Rattle.job_facts.specs.declared.store.StoreFault.TheVariants.{Memory};
ghost use Rattle.job_facts.specs.Rows.{batch_has, batch_row_of, batch_size_of};
ghost use Rattle.job_facts.specs.States.{is_closed, plan_for, records_named, records_of, rows_of};
ghost use Rattle.job_facts.specs.States.{rows_of_record, rows_or_none};
ghost use Rattle.list_store.specs.Results.{GivesOrMemory};

use crate::lists::FactLists;
use crate::names::{batch_named, product_named};
use batch_import::{ImportFault, Totals, check_batch, read_batch};
use job_facts::{BatchRow, BatchSize, StoreFault};
use std::alloc::{AllocError, Global};
use std::marker::Model;
use store_data::{Name, Product, RecordPlan, Row, plan_of_sound};

/// The rows of a record that has a plan, with the product of its batch. In contracts its value is
/// this plan.
#[derive(Drop)]
pub(crate) struct RecordRows {
    product: Product,
    rows: Vec<Row>,
}

impl Model for RecordRows {
    ghost use Rattle.store_data.specs.RecordFaults.{HavePlan};
    ghost use Rattle.store_data.specs.Sequence.{Plan, plan_of};

    ghost Value = { Plan };

    ghost view = { λ r. plan_of r.product r.rows.items };

    ghost invariant = { λ r. HavePlan r.product r.rows.items };
}

impl RecordRows {
    pub(crate) fn plan(&self, alloc: Global) -> Result<RecordPlan<'_>, AllocError>
        ensures { IfOk result (λ plan. plan ≡ self.now) }
    {
        plan_of_sound(alloc, self.rows.as_slice(), &self.product)
    }
}

// Returns the rows of a batch file, or no rows if it has a fault under `product`.
#[tactic(auto, unfolding(store_data::specs::Groups::grouped, store_data::specs::RecordFaults::record_fault, store_data::specs::Faults::summaries_fault))]
fn rows_under(alloc: Global, product: &Product, raw: &[u8]) -> Result<Vec<Row>, StoreFault>
    requires { IsProduct product.now }
    ensures value { IfOk result (λ rows. rows.items ≡ rows_or_none (batch_of product.now raw.now)) }
    ensures few { IfOk result (λ rows. length rows.items ≤ 4096) }
    ensures each { IfOk result (λ rows. All IsRow rows.items) }
    ensures sound { IfOk result (λ rows. AreSoundRecords product.now.max rows.items) }
    ensures cause { IfErr result (λ fault. fault ≡ Memory) }
{
    match read_batch(alloc, raw, product) {
        Ok(read) => Ok(read.rows),
        Err(ImportFault::At(_)) => Ok(Vec::new(alloc)),
        Err(ImportFault::Memory) => Err(StoreFault::Memory),
    }
}

/// Returns the batch with the name `name`.
pub(crate) fn batch_row(facts: &FactLists, name: &Name) -> Option<BatchRow>
    ensures { result ≡ batch_row_of facts.now name.now }
{
    batch_named(&facts.batches, name).map(|batch| BatchRow {
        product: batch.product,
        is_closed: has_name(&facts.closed, name),
    })
}

/// Returns the numbers of rows and records of the batch `name`.
#[tactic(auto, unfolding(job_facts::specs::States::rows_of, store_data::specs::Groups::grouped))]
pub(crate) fn batch_size(
    alloc: Global,
    facts: &FactLists,
    name: &Name,
) -> Result<Option<BatchSize>, StoreFault>
    ensures { GivesOrMemory result (λ size. size ≡ batch_size_of facts.now name.now) }
{
    let Some(batch) = batch_named(&facts.batches, name) else {
        return Ok(None);
    };
    let none = BatchSize {
        rows: 0,
        records: 0,
    };
    let Some(product) = product_named(&facts.products, &batch.product) else {
        return Ok(Some(none));
    };
    match check_batch(alloc, batch.raw.as_slice(), &product) {
        Ok(Totals { rows, records }) => Ok(Some(BatchSize { rows, records })),
        Err(ImportFault::At(_)) => Ok(Some(none)),
        Err(ImportFault::Memory) => Err(StoreFault::Memory),
    }
}

/// Returns `true` if the batch `name` exists and has the bytes `raw`.
pub(crate) fn batch_has(facts: &FactLists, name: &Name, raw: &[u8]) -> bool
    ensures { result ≡ batch_has facts.now name.now raw.now }
{
    match batch_named(&facts.batches, name) {
        None => false,
        Some(batch) => batch.raw.as_slice() == raw,
    }
}

// Returns the rows of the record `rec`.
fn rows_of_record(alloc: Global, rows: Vec<Row>, rec: &Name) -> Result<Vec<Row>, StoreFault>
    ensures { GivesOrMemory result (λ kept. kept.items ≡ rows_of_record rows.items rec.now) }
{
    let mut kept = Vec::new(alloc);
    for row in rows {
        if row.rec == *rec {
            kept.push(row)?;
        }
    }
    Ok(kept)
}

/// Returns the rows of the record `rec`, or `None` if its batch or product doesn't exist.
#[tactic(auto, unfolding(job_facts::specs::States::plan_for, job_facts::specs::States::rows_of))]
pub(crate) fn record_rows(
    alloc: Global,
    facts: &FactLists,
    batch: &Name,
    rec: &Name,
) -> Result<Option<RecordRows>, StoreFault>
    ensures { GivesOrMemory result (λ rows. rows ≡ plan_for facts.now batch.now rec.now) }
{
    let Some(kept) = batch_named(&facts.batches, batch) else {
        return Ok(None);
    };
    let Some(product) = product_named(&facts.products, &kept.product) else {
        return Ok(None);
    };
    let all = rows_under(alloc, &product, kept.raw.as_slice())?;
    let rows = rows_of_record(alloc, all, rec)?;
    Ok(Some(RecordRows { product, rows }))
}

// Returns the names of the records, in the order of their first rows.
fn names(alloc: Global, rows: &[Row]) -> Result<Vec<Name>, StoreFault>
    ensures { GivesOrMemory result
        (λ names. names.items ≡ first_appearances (map (λ (row : RowValue). row.rec) rows.now)) }
{
    let mut names = Vec::new(alloc);
    for row in rows {
        if !has_name(&names, &row.rec) {
            names.push(row.rec)?;
        }
    }
    Ok(names)
}

/// Returns `true` if `names` contains `name`.
pub(crate) fn has_name(names: &[Name], name: &Name) -> bool
    ensures { result ≡ list_any (bytes_eq name.now) names.now }
{
    names.iter().any(|other| *name == *other)
}

/// Returns the names of the records of `batch`, in file order. A batch that doesn't exist has no
/// records.
#[tactic(auto, unfolding(job_facts::specs::States::records_of, job_facts::specs::States::rows_of))]
pub(crate) fn record_names(
    alloc: Global,
    facts: &FactLists,
    batch: &Name,
) -> Result<Vec<Name>, StoreFault>
    ensures { GivesOrMemory result (λ names. names.items ≡ records_named facts.now batch.now) }
{
    let Some(kept) = batch_named(&facts.batches, batch) else {
        return Ok(Vec::new(alloc));
    };
    let Some(product) = product_named(&facts.products, &kept.product) else {
        return Ok(Vec::new(alloc));
    };
    let rows = rows_under(alloc, &product, kept.raw.as_slice())?;
    names(alloc, &rows)
}
