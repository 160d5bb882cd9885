//! Finds lots by serial.
ghost use Rattle.std.specs.Prelude.{◌≡◌, ◌+◌, nat_lt, option_copied};
ghost use Rattle.job_facts.specs.States.{any_overlaps, lot_of};

use crate::facts::Lot;

// Returns `true` if `serial` is below the end of the range that starts with `first`.
fn is_below(serial: u64, first: u64, count: u32) -> bool
    ensures { result ≡ nat_lt serial (first + count) }
{
    serial < first || serial - first < u64::from(count)
}

/// Returns the first of `lots` that contains `blank`.
pub fn lot_among(lots: &[Lot], blank: u64) -> Option<&Lot>
    ensures { option_copied result ≡ lot_of lots.now blank }
{
    lots.iter().find(|lot| lot.first <= blank && is_below(blank, lot.first, lot.count))
}

/// Returns `true` if one of `lots` contains one of the `count` serials that start with `first`.
pub fn any_overlaps(lots: &[Lot], first: u64, count: u32) -> bool
    ensures { result ≡ any_overlaps lots.now first count }
{
    lots.iter().any(|lot| is_below(first, lot.first, lot.count)
        && is_below(lot.first, first, count))
}
