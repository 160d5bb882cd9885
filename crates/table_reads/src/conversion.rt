//! The conversion of the rows of a query to values.
ghost use Rattle.std.specs.Prelude.{◌≡◌, false, All, MatchOption, MatchResult};
ghost use Rattle.std.specs.List.{AllZip};
ghost use Rattle.sqlite.specs.State.{is_disk_error};

use sqlite::{Error, Row};
use std::alloc::Global;

/// A conversion of the rows of a query to values of `X`.
pub(crate) trait Conversion<X> {
    ghost use Rattle.std.specs.Prelude.{◌≡◌, false, MatchOption, MatchResult};
    ghost use Rattle.sqlite.specs.Order.{Row as RowValue};
    ghost use Rattle.sqlite.specs.State.{is_disk_error};

    /// The shape of the rows that can be converted.
    ghost is_row: { RowValue → Type 0 };

    /// The relation between a row and its value.
    ghost gives: { RowValue → X → Type 0 };

    /// Returns the value of `row`, or `None` if `row` doesn't have the shape. Fails only if an
    /// allocation fails.
    fn convert(alloc: Global, row: &Row) -> Result<Option<X>, Error>
        ensures { MatchResult result
            (λ found. MatchOption found (is_row row.now → ⊥) (gives row.now))
            (λ e. is_disk_error e ≡ false) };
}

// Returns the values of all rows, or `None` if a row doesn't have the shape. Each row is freed as
// soon as it is converted.
pub(crate) fn all_in<X: Drop, C: Conversion<X>>(
    alloc: Global,
    rows: Vec<Row>,
) -> Result<Option<Vec<X>>, Error>
    ensures { MatchResult result (λ found. MatchOption found (All C.is_row rows.items → ⊥)
        (λ all. AllZip C.gives rows.items all.items))
        (λ e. is_disk_error e ≡ false) }
{
    let mut all = Vec::with_capacity(alloc, rows.len())?;
    for row in rows {
        let Some(x) = C::convert(alloc, &row)? else {
            return Ok(None);
        };
        all.push(x)?;
    }
    Ok(Some(all))
}
