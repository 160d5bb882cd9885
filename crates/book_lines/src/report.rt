//! The report of a batch, made from rows.
ghost use Rattle.std.specs.Prelude.{◌≡◌, ◌==◌, ℕ, Contains, IfOk, List, Some, filter, find};
ghost use Rattle.std.specs.Prelude.{option_map};
ghost use Rattle.std.specs.List.Sorted.{IsNonDecreasingBy};
ghost use Rattle.job_facts.specs.Contents.{AreSound, Contents};
ghost use Rattle.job_facts.specs.Sound.{IsName};
ghost use Rattle.job_facts.specs.States.{is_good};
ghost use Rattle.table_rows.specs.Keys.{is_good_of};
ghost use Rattle.table_rows.specs.Tables.{HaveSameRows, StoredSession as SessionValue};
ghost use Rattle.table_rows.specs.Tables.{Tables as TablesValue, totals_of};
ghost use Rattle.image_laws.specs.Image.{image};
ghost use Rattle.row_laws.specs.RowValues.{batch_of_row, line_of, lines_at};
ghost use Rattle.audit_laws.specs.Audited.{IsAuditedBatch, IsAuditedRecord, is_session_of};
ghost use Rattle.audit_order.specs.Order.{AreReady};
ghost use Rattle.reports.specs.Report.{report_text};
ghost use Rattle.book_lines.specs.Book.{IsBook};
ghost use Rattle.book_lines.specs.Keyed.{AreKeyed};
ghost use Rattle.book_lines.specs.Report.{batch_report, report_of};

use crate::keyed::{Keyed, by_place, first_with};
use crate::lists::records;
use audit_order::range_of;
use job_facts::{BatchRow, BatchTotals, RecordLine, SessionState};
use reports::report_text;
use std::alloc::{AllocError, Global};
use store_data::Name;
use table_rows::{StoredBatch, StoredRecord, StoredSession, Tables};

/// Returns the current report of `batch`, which is a batch of `tables`. A batch that is still open
/// also has a report.
///
/// Takes O(n log n) time for n sessions and records of the batch.
///
/// # Errors
///
/// Returns `AllocError` if an allocation fails.
#[tactic(auto, unfolding(crate::specs::Report::batch_report))]
pub fn batch_report(
    alloc: Global,
    tables: &Tables,
    batch: &StoredBatch,
) -> Result<Vec<u8>, AllocError>
    requires book { IsBook tables.now }
    requires there { Contains tables.now.batches batch.now }
    ensures { IfOk result (λ text. text.items ≡ batch_report tables.now batch.now) }
{
    let lines = lines_of(alloc, tables, batch)?;
    let name = name_of(&batch.name);
    let row = row_of(batch);
    let totals = totals_of(tables, batch);
    let text = report_text(alloc, &name, &row, &lines, &totals)?;
    Ok(text.into_bytes())
}

/// Lemma: the report made from rows is the report by the facts of any contents that the rows
/// represent, which is the output of `persod report`.
pub fn reports_by_rows()
    ensures { (t : TablesValue) (c : Contents) (name : List ℕ) → IsBook t → AreSound c
        → HaveSameRows t (image c) → report_of t name ≡ report_text c.facts name }
{}

fn name_of(text: &[u8]) -> Name
    requires { IsName text.now }
    ensures { result ≡ text.now }
{
    Name::new(text).unwrap()
}

// Returns the product of `batch`, and whether the batch is closed.
fn row_of(batch: &StoredBatch) -> BatchRow
    requires { IsName batch.now.product }
    ensures { result ≡ batch_of_row batch.now }
{
    BatchRow {
        product: name_of(&batch.product),
        is_closed: batch.closed,
    }
}

// Returns the counters of `batch`. The number of its records is the sum of the counters of the five
// states, because each record is in exactly one state.
fn totals_of(tables: &Tables, batch: &StoredBatch) -> BatchTotals
    requires ready { AreReady tables.now }
    requires audited { IsAuditedBatch tables.now batch.now }
    ensures { result ≡ totals_of batch.now }
{
    BatchTotals {
        records: records(tables, batch),
        waiting: batch.waiting,
        running: batch.running,
        failed: batch.failed,
        withdrawn: batch.withdrawn,
        good: batch.good,
        sessions: batch.sessions,
        spoiled: batch.spoiled,
    }
}

// ---- records

// Returns the lines of the records of `batch`, in file order.
fn lines_of(
    alloc: Global,
    tables: &Tables,
    batch: &StoredBatch,
) -> Result<Vec<RecordLine>, AllocError>
    requires { IsBook tables.now }
    ensures { IfOk result (λ lines. lines.items
        ≡ lines_at tables.now.records tables.now.sessions (Some batch.now)) }
{
    let by_place = by_place(alloc, &tables.sessions, batch.id)?;
    let records = range_of(&tables.records, batch.id);
    let mut lines = Vec::new(alloc);
    for rec in records {
        lines.push(line_of(rec, &by_place))?;
    }
    Ok(lines)
}

// Returns the line of the record `rec`. `by_place` contains the sessions of its batch, keyed by the
// positions of their records.
fn line_of(rec: &StoredRecord, by_place: &[Keyed<'_, StoredSession>]) -> RecordLine
    requires name { IsName rec.now.name }
    requires rising { IsNonDecreasingBy (λ (k : ℕ × SessionValue). k.0) by_place.now }
    ensures { (t : TablesValue) → IsAuditedRecord t rec.now
        → AreKeyed (λ (s : SessionValue). s.place)
        (filter (is_session_of rec.now.batch) t.sessions) by_place.now
        → result ≡ line_of (filter (is_good_of rec.now.batch) t.sessions) rec.now }
{
    let sessions = range_of(by_place, rec.place);
    RecordLine {
        rec: name_of(&rec.name),
        stands: rec.state,
        sessions: sessions.len() as u64,
        blank: good_serial(sessions),
    }
}

// Returns the serial of the good card in `sessions`, if there is one.
fn good_serial(sessions: &[Keyed<'_, StoredSession>]) -> Option<u64>
    ensures { result ≡ option_map (λ (k : ℕ × SessionValue). k.1.serial)
        (find (λ (k : ℕ × SessionValue). is_good k.1.state) sessions.now) }
{
    let session = first_with(sessions, SessionState::Good)?;
    Some(session.serial)
}
