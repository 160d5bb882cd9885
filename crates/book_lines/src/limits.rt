//! The lines of `shopbook list` about limits: the used and the allowed numbers of products, lots
//! and batches, and the size of the database file.
ghost use Rattle.std.specs.Prelude.{◌≡◌, ◌++◌, OnOk};
ghost use Rattle.book_lines.specs.Limits.{limit_line, limits_in, size_line};
ghost use Rattle.book_lines.specs.Lines.{line_text, lines_by};

use crate::cell::{number, optional, word};
use crate::form::Form;
use crate::line::push_line;
use crate::printed::{Printed, print_all};
use std::alloc::AllocError;
use std::marker::Model;
use table_rows::Tables;

/// The maximum number of products.
pub(crate) const MOST_PRODUCTS: usize = 256;

/// The maximum number of lots, and of batches.
pub(crate) const MOST_NAMED: usize = 4096;

/// A limit, with the name of what it limits and the number that is used.
#[derive(Drop)]
struct Limit<'a> {
    name: &'a str,
    used: usize,
    allowed: usize,
}

impl<'a> Model for Limit<'a> {
    ghost use Rattle.std.specs.Prelude.{List, ℕ};

    ghost Value = { List ℕ × ℕ × ℕ };

    ghost view = { λ l. (l.name.now, l.used, l.allowed) };
}

/// Appends a line for each limit, with the used and the allowed number.
///
/// # Errors
///
/// Returns `AllocError` if an allocation fails. Part of the lines may have been appended.
pub(crate) fn push_limits(text: &mut Vec<u8>, form: Form, tables: &Tables) -> Result<(), AllocError>
    ensures { OnOk result
        (text.new.items ≡ text.old.items ++ lines_by form limit_line (limits_in tables.now)) }
{
    let limits = [
        limited("product", tables.products.len(), MOST_PRODUCTS),
        limited("lot", tables.lots.len(), MOST_NAMED),
        limited("batch", tables.batches.len(), MOST_NAMED),
    ];
    print_all(text, form, tables, &limits)
}

fn limited(name: &str, used: usize, allowed: usize) -> Limit<'_>
    ensures { result ≡ (name.now, used, allowed) }
{
    Limit {
        name,
        used,
        allowed,
    }
}

impl Printed for Limit<'_> {
    ghost use Rattle.std.specs.Prelude.{⊤};
    ghost use Rattle.book_lines.specs.Limits.{limit_line};

    ghost fits = { λ t l. ⊤ };

    ghost line = { λ t l. limit_line l };

    fn print(&self, text: &mut Vec<u8>, form: Form, _tables: &Tables) -> Result<(), AllocError> {
        let cells = [
            word("name", self.name.as_bytes()),
            number("used", self.used as u64),
            number("allowed", self.allowed as u64),
        ];
        push_line(text, form, "limit", &cells)
    }
}

/// Appends the line with the size of the database file in bytes, if it is known.
///
/// # Errors
///
/// Returns `AllocError` if an allocation fails. Part of the line may have been appended.
pub(crate) fn push_size(text: &mut Vec<u8>, form: Form, size: Option<u64>) -> Result<(), AllocError>
    ensures { OnOk result
        (text.new.items ≡ text.old.items ++ line_text form (size_line size)) }
{
    push_line(text, form, "size", &[optional("bytes", size)])
}
