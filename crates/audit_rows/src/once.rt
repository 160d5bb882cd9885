//! Checks that a list has no two equal items, or no two rows that aren't apart.
ghost use Rattle.std.specs.Prelude.{◌≡◌, ◌↔◌, Bool, true, false, IfOk, IsTrue, All, AllPairs};

use std::alloc::{AllocError, Global};
use std::collections::BTreeSet;

/// A row that must differ from all other rows of its table.
pub(crate) trait Apart {
    ghost apart: { Self → Self → Bool };

    /// Returns `true` if the two rows differ enough, such as in their names.
    fn is_apart(&self, other: &Self) -> bool
        ensures { result ≡ apart self.now other.now };
}

// Returns `true` if all `rows` are apart from `other`.
fn are_apart_from<T: Apart>(rows: &[T], other: &T) -> bool
    ensures { IsTrue result ↔ All (λ row. T.apart row other.now ≡ true) rows.now }
{
    rows.iter().all(|row| row.is_apart(other))
}

/// Returns `true` if every two rows are apart. Compares all pairs, so it takes quadratic time.
pub(crate) fn are_apart<T: Apart>(rows: &[T]) -> bool
    ensures { IsTrue result ↔ AllPairs (λ x y. T.apart x y ≡ true) rows.now }
{
    for place in 0..rows.len() {
        if !are_apart_from(&rows[..place], &rows[place]) {
            return false;
        }
    }
    true
}

/// Returns `true` if no two items are equal. Takes time in O(n log n) for n items. A hash set could
/// take quadratic time, because its hash isn't secret and clients choose many of the items.
///
/// # Errors
///
/// Returns `AllocError` if an allocation fails.
pub(crate) fn are_once<T: Ord + Copy + Drop>(alloc: Global, items: &[T]) -> Result<bool, AllocError>
    ensures { IfOk result (λ once. IsTrue once ↔ AllPairs (λ x y. T.eq y x ≡ false) items.now) }
{
    let set: BTreeSet<T> = items.iter().copied().collect(alloc)?;
    Ok(set.len() == items.len())
}
