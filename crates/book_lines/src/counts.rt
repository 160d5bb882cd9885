//! The output of `shopbook check`: the verdict, the number of rows in each table, and the numbers
//! of products, lots and batches that can still be added.
ghost use Rattle.std.specs.Prelude.{◌≡◌, ◌++◌, IfOk, OnOk, codes, option_map};
ghost use Rattle.audit_rows.specs.RuleNames.{name_of};
ghost use Rattle.book_lines.specs.Counts.{check_text, count_line, file_line, room_in, rows_in};
ghost use Rattle.book_lines.specs.Counts.{verdict};
ghost use Rattle.book_lines.specs.Lines.{line_text, lines_by};

use crate::cell::{name, number, word};
use crate::form::Form;
use crate::limits::{MOST_NAMED, MOST_PRODUCTS};
use crate::line::push_line;
use audit_rows::Rule;
use std::alloc::{AllocError, Global};
use std::marker::Model;
use table_rows::Tables;

/// A number with the name of what it counts.
#[derive(Drop)]
struct Count<'a> {
    name: &'a str,
    count: usize,
}

impl<'a> Model for Count<'a> {
    ghost use Rattle.std.specs.Prelude.{List, ℕ};

    ghost Value = { List ℕ × ℕ };

    ghost view = { λ c. (c.name.now, c.count) };
}

/// Returns the output of `shopbook check` for a database with the schema version `version`. It has
/// the verdict with the first rule that the rows break (`failing`), the number of rows in each
/// table, and the numbers of products, lots and batches that can still be added.
///
/// # Errors
///
/// Returns `AllocError` if an allocation fails.
pub fn check_text(
    alloc: Global,
    form: Form,
    version: u64,
    failing: Option<Rule>,
    tables: &Tables,
) -> Result<Vec<u8>, AllocError>
    ensures { IfOk result
        (λ text. text.items ≡ check_text form version failing tables.now) }
{
    let mut text = Vec::new(alloc);
    push_file(&mut text, form, version, failing)?;
    push_rows(&mut text, form, tables)?;
    push_room(&mut text, form, tables)?;
    Ok(text)
}

fn push_file(
    text: &mut Vec<u8>,
    form: Form,
    version: u64,
    failing: Option<Rule>,
) -> Result<(), AllocError>
    ensures { OnOk result
        (text.new.items ≡ text.old.items ++ line_text form (file_line version failing)) }
{
    let cells = [
        number("version", version),
        word("verdict", verdict(failing).as_bytes()),
        name("rule", rule_name(failing)),
    ];
    push_line(text, form, "file", &cells)
}

fn verdict(failing: Option<Rule>) -> &'static str
    ensures { result.now ≡ verdict failing }
{
    match failing {
        None => "sound",
        Some(_) => "unsound",
    }
}

fn rule_name(failing: Option<Rule>) -> Option<&'static [u8]>
    ensures { option_map (λ n. n.now) result ≡ option_map name_of failing }
{
    match failing {
        None => None,
        Some(rule) => Some(rule.name().as_bytes()),
    }
}

fn push_rows(text: &mut Vec<u8>, form: Form, tables: &Tables) -> Result<(), AllocError>
    ensures { OnOk result (text.new.items
        ≡ text.old.items ++ lines_by form (count_line (codes "table")) (rows_in tables.now)) }
{
    let counts = [
        counted("product", tables.products.len()),
        counted("lot", tables.lots.len()),
        counted("batch", tables.batches.len()),
        counted("record", tables.records.len()),
        counted("grouping", tables.groupings.len()),
        counted("session", tables.sessions.len()),
        counted("word", tables.words.len()),
        counted("blank", tables.blanks.len()),
        counted("remake", tables.remakes.len()),
        counted("reply", tables.replies.len()),
        counted("mark", tables.marks.len()),
    ];
    push_counts(text, form, "table", &counts)
}

fn push_room(text: &mut Vec<u8>, form: Form, tables: &Tables) -> Result<(), AllocError>
    ensures { OnOk result (text.new.items
        ≡ text.old.items ++ lines_by form (count_line (codes "room")) (room_in tables.now)) }
{
    let counts = [
        counted(
            "product",
            MOST_PRODUCTS.saturating_sub(tables.products.len()),
        ),
        counted("lot", MOST_NAMED.saturating_sub(tables.lots.len())),
        counted("batch", MOST_NAMED.saturating_sub(tables.batches.len())),
    ];
    push_counts(text, form, "room", &counts)
}

fn counted(name: &str, count: usize) -> Count<'_>
    ensures { result ≡ (name.now, count) }
{
    Count { name, count }
}

fn push_counts(
    text: &mut Vec<u8>,
    form: Form,
    kind: &str,
    counts: &[Count<'_>],
) -> Result<(), AllocError>
    ensures { OnOk result
        (text.new.items ≡ text.old.items ++ lines_by form (count_line kind.now) counts.now) }
{
    for count in counts {
        push_count(text, form, kind, count)?;
    }
    Ok(())
}

fn push_count(
    text: &mut Vec<u8>,
    form: Form,
    kind: &str,
    count: &Count<'_>,
) -> Result<(), AllocError>
    ensures { OnOk result
        (text.new.items ≡ text.old.items ++ line_text form (count_line kind.now count.now)) }
{
    let cells = [
        word("name", count.name.as_bytes()),
        number("count", count.count as u64),
    ];
    push_line(text, form, kind, &cells)
}
