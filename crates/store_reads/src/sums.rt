//! The counters of a product's blanks, computed from the rows of its lots and batches.
ghost use Rattle.std.specs.Prelude.{IfOk, IsOk, ◌<◌, ◌^◌, ◌≡◌, ◌+◌};
ghost use Rattle.store_reads.specs.Sums.{AreBatchSums, AreLotSums, batch_sums, lot_sums};
ghost use Rattle.store_reads.specs.Sums.{totals_of_rows};

use job_facts::BlankTotals;
use row_reads::{BatchHead, LotRow};
use sqlite::Error;

// Sums over the lots of a product.
#[derive(Clone, Copy)]
struct LotSums {
    total: u64,
    discarded: u64,
}

// Sums over the batches of a product.
#[derive(Clone, Copy)]
struct BatchSums {
    good: u64,
    running: u64,
    spoiled: u64,
}

// Returns `a + b`, or `InvalidQuery` if it doesn't fit in 64 bits. The sums of sound contents
// always fit.
fn plus(a: u64, b: u64) -> Result<u64, Error>
    ensures value { IfOk result (λ sum. sum ≡ a + b) }
    ensures total { a + b < 2 ^ 64 → IsOk result }
{
    a.checked_add(b).ok_or(Error::InvalidQuery)
}

fn lot_sums(lots: &[LotRow]) -> Result<LotSums, Error>
    ensures value { IfOk result (λ sums. sums ≡ lot_sums lots.now) }
    ensures total { AreLotSums (lot_sums lots.now) → IsOk result }
{
    let mut sums = LotSums {
        total: 0,
        discarded: 0,
    };
    for row in lots {
        sums = LotSums {
            total: plus(sums.total, u64::from(row.lot.count))?,
            discarded: plus(sums.discarded, row.discarded)?,
        };
    }
    Ok(sums)
}

fn batch_sums(heads: &[BatchHead]) -> Result<BatchSums, Error>
    ensures value { IfOk result (λ sums. sums ≡ batch_sums heads.now) }
    ensures total { AreBatchSums (batch_sums heads.now) → IsOk result }
{
    let mut sums = BatchSums {
        good: 0,
        running: 0,
        spoiled: 0,
    };
    for head in heads {
        sums = BatchSums {
            good: plus(sums.good, head.totals.good)?,
            running: plus(sums.running, head.totals.running)?,
            spoiled: plus(sums.spoiled, head.totals.spoiled)?,
        };
    }
    Ok(sums)
}

/// Returns the counters of a product's blanks, as sums over its lots and batches.
///
/// # Errors
///
/// Returns `InvalidQuery` if a sum doesn't fit in 64 bits.
pub(crate) fn totals_of_rows(lots: &[LotRow], heads: &[BatchHead]) -> Result<BlankTotals, Error>
    ensures value { IfOk result (λ totals. totals ≡ totals_of_rows lots.now heads.now) }
    ensures total { AreLotSums (lot_sums lots.now) → AreBatchSums (batch_sums heads.now)
        → IsOk result }
{
    let LotSums { total, discarded } = lot_sums(lots)?;
    let BatchSums {
        good,
        running,
        spoiled,
    } = batch_sums(heads)?;
    Ok(BlankTotals {
        lots: lots.len() as u64,
        total,
        good,
        running,
        spoiled,
        discarded,
    })
}
