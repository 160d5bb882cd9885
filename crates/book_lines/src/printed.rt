//! Rows that are printed one after the other, a line for each.
ghost use Rattle.std.specs.Prelude.{◌≡◌, ◌++◌, All, OnOk};
ghost use Rattle.book_lines.specs.Lines.{line_text, lines_by};

use crate::form::Form;
use std::alloc::AllocError;
use table_rows::Tables;

/// A row that has a line.
pub(crate) trait Printed {
    ghost use Rattle.table_rows.specs.Tables.{Tables as TablesValue};
    ghost use Rattle.book_lines.specs.Lines.{Line, line_text};

    /// The condition on the tables and the row under which the row can be printed.
    ghost fits: { TablesValue → Self → Type 0 };

    /// The line of the row. It can depend on other rows.
    ghost line: { TablesValue → Self → Line };

    /// Appends the line of the row.
    ///
    /// # Errors
    ///
    /// Returns `AllocError` if an allocation fails. Part of the line may have been appended.
    fn print(&self, text: &mut Vec<u8>, form: Form, tables: &Tables) -> Result<(), AllocError>
        requires { fits tables.now self.now }
        ensures { OnOk result (text.new.items
            ≡ text.old.items ++ line_text form (line tables.now self.now)) };
}

/// Appends the lines of `rows`, in their order.
///
/// # Errors
///
/// Returns `AllocError` if an allocation fails. Part of the lines may have been appended.
pub(crate) fn print_all<T: Printed>(
    text: &mut Vec<u8>,
    form: Form,
    tables: &Tables,
    rows: &[T],
) -> Result<(), AllocError>
    requires { All (T.fits tables.now) rows.now }
    ensures { OnOk result
        (text.new.items ≡ text.old.items ++ lines_by form (T.line tables.now) rows.now) }
{
    for row in rows {
        row.print(text, form, tables)?;
    }
    Ok(())
}
