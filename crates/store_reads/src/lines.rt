//! Converts the rows of records and good cards to record lines.
ghost use Rattle.std.specs.Prelude.{All, IfOk, count_by, map, nat_eq, ℕ, ◌==◌, ◌≡◌, ◌≤◌};
ghost use Rattle.std.specs.HashMap.{get};
ghost use Rattle.row_laws.specs.RowValues.{cards};
ghost use Rattle.row_reads.specs.CardDecoding.{IsRecordAt};
ghost use Rattle.row_reads.specs.Readable.{FailsForMemory};
ghost use Rattle.store_reads.specs.Lines.{blank_of, is_card_at, line_for, line_with};

use job_facts::{RecordLine, RecordState};
use row_reads::{GoodCard, RecordAt};
use sqlite::Error;
use std::alloc::Global;
use std::collections::HashMap;

// Returns the number of sessions that aren't spoiled, for a record in the state `stands`.
fn cards(stands: RecordState) -> u64
    ensures value { result ≡ cards stands }
    ensures few { result ≤ 1 }
{
    match stands {
        RecordState::Running | RecordState::Good => 1,
        _ => 0,
    }
}

// Returns the blanks of good cards, keyed by the positions of their records. Returns `InvalidQuery`
// if a record has two good cards.
fn blanks_by_place(alloc: Global, good: &[GoodCard]) -> Result<HashMap<u64, u64>, Error>
    ensures value { IfOk result (λ blanks. (k : ℕ) → get nat_eq blanks k ≡ blank_of good.now k) }
    ensures once { IfOk result (λ _. (k : ℕ) → count_by (is_card_at k) good.now ≤ 1) }
    ensures total { ((k : ℕ) → count_by (is_card_at k) good.now ≤ 1) → FailsForMemory result }
{
    let mut blanks = HashMap::new(alloc);
    for card in good {
        if blanks.insert(card.place, card.serial)?.is_some() {
            return Err(Error::InvalidQuery);
        }
    }
    Ok(blanks)
}

fn line_with(rec: &RecordAt, blank: Option<u64>) -> RecordLine
    requires { IsRecordAt rec.now }
    ensures { result ≡ line_with rec.now blank }
{
    RecordLine {
        rec: rec.name,
        stands: rec.stands,
        sessions: rec.spoiled + cards(rec.stands),
        blank,
    }
}

/// Returns the line of each record in `records`. `good` contains the good cards of the batch.
///
/// # Errors
///
/// - `InvalidQuery`: a record has two good cards.
/// - `SqliteFailure(OutOfMemory)`: an allocation fails.
pub(crate) fn lines_for(
    alloc: Global,
    records: &[RecordAt],
    good: &[GoodCard],
) -> Result<Vec<RecordLine>, Error>
    requires { All IsRecordAt records.now }
    ensures value { IfOk result (λ lines. lines.items ≡ map (line_for good.now) records.now) }
    ensures once { IfOk result (λ _. (k : ℕ) → count_by (is_card_at k) good.now ≤ 1) }
    ensures total { ((k : ℕ) → count_by (is_card_at k) good.now ≤ 1) → FailsForMemory result }
{
    let blanks = blanks_by_place(alloc, good)?;
    let mut lines = Vec::new(alloc);
    for rec in records {
        let blank = blanks.get(&rec.place).copied();
        lines.push(line_with(rec, blank))?;
    }
    Ok(lines)
}
