//! The rows of a table that is read as a whole.
ghost use Rattle.std.specs.Prelude.{◌≡◌};
ghost use Rattle.table_reads.specs.Whole.{as_stored};

use crate::conversion::Conversion;
use sqlite::{Error, Row};
use std::alloc::Global;

/// A row of a table that is read as a whole.
pub trait Stored: Sized + Drop {
    ghost use Rattle.std.specs.Prelude.{◌≡◌, ◌↔◌, false, Bool, IsTrue, MatchResult};
    ghost use Rattle.sqlite.specs.Order.{Row as RowValue};
    ghost use Rattle.sqlite.specs.State.{is_disk_error};
    ghost use Rattle.table_reads.specs.Whole.{as_stored};

    /// The stored form of the row in its table.
    ghost encode: { Self → RowValue };

    /// The numbers of the row are in the ranges of the program's types.
    ghost fits: { Self → Type 0 };

    /// The shape of the rows that a query of the table returns.
    ghost is_row: { RowValue → Type 0 };

    /// Whether a column is an alias of the rowid.
    ghost by_rowid: { Bool };

    /// Returns `true` if `row` has the shape of the table.
    fn is_in(row: &Row) -> bool
        ensures { IsTrue result ↔ is_row row.now };

    /// Returns the typed row for `row`, which has the shape of the table. Fails only if an
    /// allocation fails.
    fn read(alloc: Global, row: &Row) -> Result<Self, Error>
        ensures { MatchResult result (λ it. is_row row.now
            → encode it ≡ as_stored by_rowid row.now) (λ e. is_disk_error e ≡ false) };

    /// A row whose numbers are in range has the shape of the table in a query.
    ghost shaped: { (x : Self) → fits x → (row : RowValue) → as_stored by_rowid row ≡ encode x
        → is_row row };
}

/// The conversion of the rows of a table that is read as a whole.
pub(crate) struct WholeRow;

impl<T: Stored> Conversion<T> for WholeRow {
    ghost is_row = { T.is_row };

    ghost gives = { λ row it. T.encode it ≡ as_stored T.by_rowid row };

    fn convert(alloc: Global, row: &Row) -> Result<Option<T>, Error> {
        if T::is_in(row) {
            Ok(Some(T::read(alloc, row)?))
        } else {
            Ok(None)
        }
    }
}
