//! The text of a batch's report, with lines for the batch, for each record, and for the totals.
ghost use Rattle.std.specs.Prelude.{◌≡◌, ◌++◌, IfOk, OnOk, string_bytes};
ghost use Rattle.reports.specs.Report.{head_text, labelled, record_text, text_with, totals_text};

use crate::names::{closed_name, state_name};
use arrivals::name_text;
use job_facts::{BatchRow, BatchTotals, RecordLine};
use std::alloc::{AllocError, Global};
use store_data::Name;

/// Returns the report of the batch `batch`. `lines` are its records in file order.
///
/// # Errors
///
/// Returns `AllocError` if an allocation fails.
pub fn report_text(
    alloc: Global,
    batch: &Name,
    row: &BatchRow,
    lines: &[RecordLine],
    totals: &BatchTotals,
) -> Result<String, AllocError>
    ensures { IfOk result
        (λ text. string_bytes text ≡ text_with batch.now row.now lines.now totals.now) }
{
    let mut text = String::new(alloc);
    push_head(&mut text, batch, row)?;
    for line in lines {
        push_record(&mut text, line)?;
    }
    push_totals(&mut text, totals)?;
    Ok(text)
}

// Appends the name, the product and the state of the batch.
#[tactic(auto, unfolding(crate::specs::Report::head_text))]
fn push_head(text: &mut String, batch: &Name, row: &BatchRow) -> Result<(), AllocError>
    ensures { OnOk result
        (string_bytes text.new ≡ string_bytes text.old ++ head_text batch.now row.now) }
{
    let name = name_text(batch);
    let product = name_text(&row.product);
    let state = closed_name(row.is_closed);
    writeln!(text, "batch {name}\nproduct {product}\nstate {state}")
}

// Appends the name and the state of a record, the number of its sessions, and the serial of its
// good card.
#[tactic(auto, unfolding(crate::specs::Report::record_text))]
fn push_record(text: &mut String, line: &RecordLine) -> Result<(), AllocError>
    ensures { OnOk result (string_bytes text.new ≡ string_bytes text.old ++ record_text line.now) }
{
    let name = name_text(&line.rec);
    let state = state_name(line.stands);
    let sessions = line.sessions;
    match line.blank {
        Some(blank) => writeln!(text, "record {name} {state} {sessions} {blank}"),
        None => writeln!(text, "record {name} {state} {sessions} -"),
    }
}

// Appends the totals. Labels are left-aligned in 9 columns, and numbers right-aligned in 10.
fn push_totals(text: &mut String, totals: &BatchTotals) -> Result<(), AllocError>
    ensures { OnOk result
        (string_bytes text.new ≡ string_bytes text.old ++ totals_text totals.now) }
{
    push_total(text, "records  ", totals.records)?;
    push_total(text, "waiting  ", totals.waiting)?;
    push_total(text, "running  ", totals.running)?;
    push_total(text, "failed   ", totals.failed)?;
    push_total(text, "withdrawn", totals.withdrawn)?;
    push_total(text, "good     ", totals.good)?;
    push_total(text, "sessions ", totals.sessions)?;
    push_total(text, "spoiled  ", totals.spoiled)
}

fn push_total(text: &mut String, label: &str, total: u64) -> Result<(), AllocError>
    ensures { OnOk result
        (string_bytes text.new ≡ string_bytes text.old ++ labelled label.now total) }
{
    writeln!(text, "{label} {total:>10}")
}
