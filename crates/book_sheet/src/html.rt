//! Parts of an HTML page: escaped text, and the cells and rows of a table.
ghost use Rattle.std.specs.Prelude.{◌≡◌, ◌++◌, OnOk, flat_map};
ghost use Rattle.book_sheet.specs.Html.{between, cell_html, escaped, escaped_char, row_html};
ghost use Rattle.book_sheet.specs.Html.{shown_html};

use book_lines::{Cell, Shown, push_number, push_status};
use std::alloc::AllocError;

/// Appends `text` without escaping: markup, or a word of this program.
///
/// # Errors
///
/// Returns `AllocError` if an allocation fails.
pub(crate) fn push_plain(page: &mut Vec<u8>, text: &str) -> Result<(), AllocError>
    ensures { OnOk result (page.new.items ≡ page.old.items ++ text.now) }
{
    page.extend_from_slice(text.as_bytes())
}

/// Appends `text` between `before` and `after`, without escaping.
///
/// # Errors
///
/// Returns `AllocError` if an allocation fails. Part of the text may have been appended.
#[tactic(auto, unfolding(crate::specs::Html::between))]
pub(crate) fn push_between(
    page: &mut Vec<u8>,
    before: &str,
    text: &str,
    after: &str,
) -> Result<(), AllocError>
    ensures { OnOk result
        (page.new.items ≡ page.old.items ++ between before.now text.now after.now) }
{
    push_plain(page, before)?;
    push_plain(page, text)?;
    push_plain(page, after)
}

/// Appends `text` between `before` and `after`, and escapes only `text`.
///
/// # Errors
///
/// Returns `AllocError` if an allocation fails. Part of the text may have been appended.
#[tactic(auto, unfolding(crate::specs::Html::between))]
pub(crate) fn push_named(
    page: &mut Vec<u8>,
    before: &str,
    text: &[u8],
    after: &str,
) -> Result<(), AllocError>
    ensures { OnOk result
        (page.new.items ≡ page.old.items ++ between before.now (escaped text.now) after.now) }
{
    push_plain(page, before)?;
    push_escaped(page, text)?;
    push_plain(page, after)
}

/// Appends `text`, and escapes every character that could begin or end markup.
///
/// # Errors
///
/// Returns `AllocError` if an allocation fails. Part of the text may have been appended.
#[tactic(auto, unfolding(crate::specs::Html::escaped))]
pub(crate) fn push_escaped(page: &mut Vec<u8>, text: &[u8]) -> Result<(), AllocError>
    ensures { OnOk result (page.new.items ≡ page.old.items ++ escaped text.now) }
{
    for c in text {
        push_char(page, *c)?;
    }
    Ok(())
}

fn push_char(page: &mut Vec<u8>, c: u8) -> Result<(), AllocError>
    ensures { OnOk result (page.new.items ≡ page.old.items ++ escaped_char c) }
{
    match c {
        b'&' => page.extend_from_slice(b"&amp;"),
        b'<' => page.extend_from_slice(b"&lt;"),
        b'>' => page.extend_from_slice(b"&gt;"),
        b'"' => page.extend_from_slice(b"&quot;"),
        _ => page.extend_from_slice(&[c]),
    }
}

/// Appends a table row of the class `class`, which sets its colour.
///
/// # Errors
///
/// Returns `AllocError` if an allocation fails. Part of the row may have been appended.
#[tactic(auto, unfolding(crate::specs::Html::row_html))]
pub(crate) fn push_row(
    page: &mut Vec<u8>,
    class: &str,
    cells: &[Cell<'_>],
) -> Result<(), AllocError>
    ensures { OnOk result (page.new.items ≡ page.old.items ++ row_html class.now cells.now) }
{
    push_between(page, "<tr class=\"", class, "\">")?;
    push_cells(page, cells)?;
    push_plain(page, "</tr>\n")
}

fn push_cells(page: &mut Vec<u8>, cells: &[Cell<'_>]) -> Result<(), AllocError>
    ensures { OnOk result (page.new.items ≡ page.old.items ++ flat_map cell_html cells.now) }
{
    for cell in cells {
        push_cell(page, cell)?;
    }
    Ok(())
}

#[tactic(auto, unfolding(crate::specs::Html::cell_html))]
fn push_cell(page: &mut Vec<u8>, cell: &Cell<'_>) -> Result<(), AllocError>
    ensures { OnOk result (page.new.items ≡ page.old.items ++ cell_html cell.now) }
{
    push_plain(page, "<td>")?;
    push_shown(page, cell)?;
    push_plain(page, "</td>")
}

fn push_shown(page: &mut Vec<u8>, cell: &Cell<'_>) -> Result<(), AllocError>
    ensures { OnOk result (page.new.items ≡ page.old.items ++ shown_html cell.now.shown) }
{
    match cell.shown {
        Shown::Nothing => push_plain(page, "-"),
        Shown::Number(number) => push_number(page, number),
        Shown::Digits(number) => push_number(page, number),
        Shown::Word(word) => push_escaped(page, word),
        Shown::Status(sw) => push_status(page, sw),
    }
}
