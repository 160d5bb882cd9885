//! Writes accounts as compact JSON (RFC 8259), with the members sorted by name.
ghost use Rattle.std.specs.Prelude.{◌≡◌, ◌<◌, ◌^◌, IfOk};
ghost use Rattle.serde_json.specs.View.{view};
ghost use Rattle.reports.specs.Accounts.{batch_text, blank_text};
ghost use Rattle.reports.specs.Values.{batch_value, blank_value, charged};

use arrivals::name_text;
use job_facts::{BatchRow, BatchTotals, BlankTotals};
use serde_json::{Value, json};
use std::alloc::{AllocError, Global};
use store_data::{Bytes, Name};

/// Returns the account of the batch `batch`.
///
/// # Errors
///
/// Returns `AllocError` if an allocation fails.
pub(crate) fn batch_text(
    alloc: Global,
    batch: &Name,
    row: &BatchRow,
    totals: &BatchTotals,
) -> Result<Bytes, AllocError>
    ensures { IfOk result (λ text. text ≡ batch_text batch.now row.now totals.now) }
{
    let text = batch_value(alloc, batch, row, totals)?.to_string(alloc)?;
    Ok(Bytes::from_vec(text.into_bytes()))
}

/// Returns the account of the blanks of the product `product`.
///
/// # Errors
///
/// Returns `AllocError` if an allocation fails.
pub(crate) fn blank_text(
    alloc: Global,
    product: &Name,
    totals: &BlankTotals,
) -> Result<Bytes, AllocError>
    ensures { IfOk result
        (λ text. charged totals.now < 2 ^ 64 → text ≡ blank_text product.now totals.now) }
{
    let text = blank_value(alloc, product, totals)?.to_string(alloc)?;
    Ok(Bytes::from_vec(text.into_bytes()))
}

fn batch_value(
    alloc: Global,
    batch: &Name,
    row: &BatchRow,
    totals: &BatchTotals,
) -> Result<Value, AllocError>
    ensures { IfOk result (λ v. view v ≡ batch_value batch.now row.now totals.now) }
{
    json!(in alloc; {
        "batch": name_text(batch),
        "closed": row.is_closed,
        "failed": totals.failed,
        "good": totals.good,
        "product": name_text(&row.product),
        "records": totals.records,
        "running": totals.running,
        "sessions": totals.sessions,
        "spoiled": totals.spoiled,
        "waiting": totals.waiting,
        "withdrawn": totals.withdrawn
    })
}

// The saturating operations never saturate, because the number of blanks of a sound store is far
// below 2^64.
fn blank_value(alloc: Global, product: &Name, totals: &BlankTotals) -> Result<Value, AllocError>
    ensures { IfOk result
        (λ v. charged totals.now < 2 ^ 64 → view v ≡ blank_value product.now totals.now) }
{
    let used = totals.good.saturating_add(totals.running);
    let spent = totals.spoiled.saturating_add(totals.discarded);
    let charged = used.saturating_add(spent);
    json!(in alloc; {
        "charged": charged,
        "discarded": totals.discarded,
        "free": totals.total.saturating_sub(charged),
        "good": totals.good,
        "lots": totals.lots,
        "product": name_text(product),
        "running": totals.running,
        "spoiled": totals.spoiled,
        "total": totals.total
    })
}
