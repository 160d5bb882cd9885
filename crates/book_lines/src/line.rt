//! Appends lines to a text, in either form.
ghost use Rattle.std.specs.Prelude.{◌≡◌, ◌++◌, OnOk, codes};
ghost use Rattle.std.specs.List.{flat_map};
ghost use Rattle.std.specs.Fmt.{decimal};
ghost use Rattle.book_lines.specs.Lines.{cell_text, column_text, end_text, kind_text, line_text};
ghost use Rattle.book_lines.specs.Lines.{member_text, status_text};

use crate::cell::Cell;
use crate::form::Form;
use crate::shown::Shown;
use itoa::Buffer;
use std::alloc::AllocError;

/// Appends a line of the kind `kind` with the cells `cells`.
///
/// # Errors
///
/// Returns `AllocError` if an allocation fails. Part of the line may have been appended.
pub(crate) fn push_line(
    text: &mut Vec<u8>,
    form: Form,
    kind: &str,
    cells: &[Cell<'_>],
) -> Result<(), AllocError>
    ensures { OnOk result (text.new.items ≡ text.old.items
        ++ line_text form (record { kind = kind.now; cells = cells.now })) }
{
    push_kind(text, form, kind)?;
    push_cells(text, form, cells)?;
    push_end(text, form)
}

// Appends the start of a line, which contains its kind.
fn push_kind(text: &mut Vec<u8>, form: Form, kind: &str) -> Result<(), AllocError>
    ensures { OnOk result (text.new.items ≡ text.old.items ++ kind_text form kind.now) }
{
    match form {
        Form::Columns => text.extend_from_slice(kind.as_bytes()),
        Form::Json => push_three(text, b"{\"line\":\"", kind.as_bytes(), b"\""),
    }
}

fn push_end(text: &mut Vec<u8>, form: Form) -> Result<(), AllocError>
    ensures { OnOk result (text.new.items ≡ text.old.items ++ end_text form) }
{
    match form {
        Form::Columns => text.extend_from_slice(b"\n"),
        Form::Json => text.extend_from_slice(b"}\n"),
    }
}

fn push_cells(text: &mut Vec<u8>, form: Form, cells: &[Cell<'_>]) -> Result<(), AllocError>
    ensures { OnOk result (text.new.items ≡ text.old.items ++ flat_map (cell_text form) cells.now) }
{
    for cell in cells {
        push_cell(text, form, cell)?;
    }
    Ok(())
}

fn push_cell(text: &mut Vec<u8>, form: Form, cell: &Cell<'_>) -> Result<(), AllocError>
    ensures { OnOk result (text.new.items ≡ text.old.items ++ cell_text form cell.now) }
{
    match form {
        Form::Columns => {
            text.extend_from_slice(b" ")?;
            push_column(text, cell)
        }
        Form::Json => {
            push_three(text, b",\"", cell.key.as_bytes(), b"\":")?;
            push_member(text, cell)
        }
    }
}

// Appends the value of `cell` as it is shown in columns.
fn push_column(text: &mut Vec<u8>, cell: &Cell<'_>) -> Result<(), AllocError>
    ensures { OnOk result (text.new.items ≡ text.old.items ++ column_text cell.now.shown) }
{
    match cell.shown {
        Shown::Nothing => text.extend_from_slice(b"-"),
        Shown::Number(number) => push_number(text, number),
        Shown::Digits(number) => push_number(text, number),
        Shown::Word(word) => text.extend_from_slice(word),
        Shown::Status(sw) => push_status(text, sw),
    }
}

// Appends the value of `cell` as a JSON value.
fn push_member(text: &mut Vec<u8>, cell: &Cell<'_>) -> Result<(), AllocError>
    ensures { OnOk result (text.new.items ≡ text.old.items ++ member_text cell.now.shown) }
{
    match cell.shown {
        Shown::Nothing => text.extend_from_slice(b"null"),
        Shown::Number(number) => push_number(text, number),
        Shown::Digits(_) => push_quoted(text, cell),
        Shown::Word(_) => push_quoted(text, cell),
        Shown::Status(_) => push_quoted(text, cell),
    }
}

/// Appends `number` in decimal digits.
///
/// # Errors
///
/// Returns `AllocError` if an allocation fails.
pub fn push_number(text: &mut Vec<u8>, number: u64) -> Result<(), AllocError>
    ensures { OnOk result (text.new.items ≡ text.old.items ++ decimal number) }
{
    let mut digits = Buffer::new();
    text.extend_from_slice(digits.format(number).as_bytes())
}

/// Appends the status word `sw` as four uppercase hexadecimal digits.
///
/// # Errors
///
/// Returns `AllocError` if an allocation fails.
pub fn push_status(text: &mut Vec<u8>, sw: u16) -> Result<(), AllocError>
    ensures { OnOk result (text.new.items ≡ text.old.items ++ status_text sw) }
{
    let alloc = *text.allocator();
    let digits = hex::encode_upper(alloc, sw.to_be_bytes())?;
    text.extend_from_slice(digits.as_bytes())
}

// Appends the value of `cell` as it is shown in columns, in quotation marks.
fn push_quoted(text: &mut Vec<u8>, cell: &Cell<'_>) -> Result<(), AllocError>
    ensures { OnOk result (text.new.items
        ≡ text.old.items ++ codes "\"" ++ column_text cell.now.shown ++ codes "\"") }
{
    text.extend_from_slice(b"\"")?;
    push_column(text, cell)?;
    text.extend_from_slice(b"\"")
}

// Appends three texts, one after the other.
fn push_three(
    text: &mut Vec<u8>,
    first: &[u8],
    second: &[u8],
    third: &[u8],
) -> Result<(), AllocError>
    ensures { OnOk result
        (text.new.items ≡ text.old.items ++ first.now ++ second.now ++ third.now) }
{
    text.extend_from_slice(first)?;
    text.extend_from_slice(second)?;
    text.extend_from_slice(third)
}
