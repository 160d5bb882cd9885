//! The accounts of batches and of products' blanks, and the report of a batch (this project's
//! profile).
#![tactic(auto)]

ghost use Rattle.job_facts.specs.Accounts.{batch_totals, blank_totals};
ghost use Rattle.job_facts.specs.Contents.{Contents};
ghost use Rattle.job_facts.specs.Store.{LeavesContents};
ghost use Rattle.job_facts.specs.declared.refusal.Refusal.TheVariants.{BatchUnknown};
ghost use Rattle.job_facts.specs.declared.refusal.Refusal.TheVariants.{ProductUnknown};
ghost use Rattle.reports.specs.Accounts.{AreAllCounted, AreAllStanding, batch_account};
ghost use Rattle.reports.specs.Accounts.{blank_account};
ghost use Rattle.reports.specs.Report.{report_text};
ghost use Rattle.reports.specs.Answers.{KeepsUnwritten, MayAnswer, MayReport, Reports};
ghost use Rattle.reports.specs.Answers.{AnswersText, store_answer};

mod accounts;
mod fault;
mod names;
mod report;

use accounts::{batch_text, blank_text};
pub use fault::AccountFault;
use job_facts::{JobStore, Refusal};
pub use report::report_text;
use std::alloc::Global;
use std::io::Write;
use store_data::{Bytes, Name};
use text_io::write_text;

/// Returns the account of the batch `batch` in JSON: the number of records in each state, of
/// sessions, and of spoiled sessions.
///
/// # Errors
///
/// - `Refused`: refusal 56, the batch doesn't exist.
/// - `Store`: a fault of the store, or `Memory` if an allocation fails.
#[tactic(auto, using(crate::proofs::RecordLemmas::all_standing))]
pub fn batch_counts<S: JobStore>(
    alloc: Global,
    store: &mut S,
    batch: &Name,
) -> Result<Bytes, AccountFault>
    ensures answers { AnswersText (S.state store.old) (S.state store.new) BatchUnknown
        (λ c. batch_account c.facts batch.now) result }
    ensures all { (c : Contents) → AreAllStanding (batch_totals c.facts batch.now) }
    ensures cause { MayAnswer BatchUnknown result }
    ensures leaves { LeavesContents (S.state store.old) (S.state store.new) (store_answer result) }
{
    let Some(row) = store.batch(batch)? else {
        return Err(AccountFault::Refused(Refusal::BatchUnknown));
    };
    let totals = store.batch_totals(batch)?;
    Ok(batch_text(alloc, batch, &row, &totals)?)
}

/// Returns the account of the blanks of the product `product` in JSON. Each blank is free, good,
/// running, spoiled or discarded.
///
/// # Errors
///
/// - `Refused`: refusal 52, the product doesn't exist.
/// - `Store`: a fault of the store, or `Memory` if an allocation fails.
pub fn blank_counts<S: JobStore>(
    alloc: Global,
    store: &mut S,
    product: &Name,
) -> Result<Bytes, AccountFault>
    ensures answers { AnswersText (S.state store.old) (S.state store.new) ProductUnknown
        (λ c. blank_account c.facts product.now) result }
    ensures all { (c : Contents) → (S.state store.old).holds c
        → AreAllCounted (blank_totals c.facts product.now) }
    ensures cause { MayAnswer ProductUnknown result }
    ensures leaves { LeavesContents (S.state store.old) (S.state store.new) (store_answer result) }
{
    let Some(_) = store.product(product)? else {
        return Err(AccountFault::Refused(Refusal::ProductUnknown));
    };
    let totals = store.blank_totals(product)?;
    Ok(blank_text(alloc, product, &totals)?)
}

/// Writes the report of the batch `batch`: lines for the batch, for each record in file order, and
/// for the totals.
///
/// # Errors
///
/// - `Refused`: refusal 56, the batch doesn't exist. Nothing is written.
/// - `Store`: a fault of the store, or `Memory` if an allocation fails. Nothing is written.
/// - `Write`: the writer fails. Only a prefix is written.
pub fn close_report<S: JobStore, W: Write>(
    alloc: Global,
    store: &mut S,
    batch: &Name,
    writer: &mut W,
) -> Result<(), AccountFault>
    ensures reports { Reports (S.state store.old) (S.state store.new) BatchUnknown
        (λ c. report_text c.facts batch.now)
        (W.contents writer.old) (W.contents writer.new) result }
    ensures unwritten { KeepsUnwritten (W.contents writer.old) (W.contents writer.new) result }
    ensures cause { MayReport BatchUnknown result }
    ensures leaves { LeavesContents (S.state store.old) (S.state store.new) (store_answer result) }
{
    let text = report_of(alloc, store, batch)?;
    write_text(writer, text.as_slice())?;
    Ok(())
}

/// Returns the text of the report of the batch `batch`.
///
/// # Errors
///
/// - `Refused`: refusal 56, the batch doesn't exist.
/// - `Store`: a fault of the store, or `Memory` if an allocation fails.
pub fn report_of<S: JobStore>(
    alloc: Global,
    store: &mut S,
    batch: &Name,
) -> Result<Bytes, AccountFault>
    ensures answers { AnswersText (S.state store.old) (S.state store.new) BatchUnknown
        (λ c. report_text c.facts batch.now) result }
    ensures cause { MayAnswer BatchUnknown result }
    ensures leaves { LeavesContents (S.state store.old) (S.state store.new) (store_answer result) }
{
    let Some(row) = store.batch(batch)? else {
        return Err(AccountFault::Refused(Refusal::BatchUnknown));
    };
    let lines = store.record_lines(batch)?;
    let totals = store.batch_totals(batch)?;
    let text = report_text(alloc, batch, &row, lines.as_slice(), &totals)?;
    Ok(Bytes::from_vec(text.into_bytes()))
}
