//! The output of a subcommand on a database that was read.
ghost use Rattle.std.specs.Prelude.{◌≡◌, IfOk, Ok, option_map};
ghost use Rattle.table_reads.specs.Holding.{number_of};
ghost use Rattle.book_lines.specs.Book.{IsBook};
ghost use Rattle.book_file.specs.Found.{HasVerdict};
ghost use Rattle.book_answers.specs.Answers.{Gives, IsAnswer, damaged_text, form_of, sound_text};
ghost use Rattle.book_answers.specs.Answers.{text_or};

use audit_rows::Rule;
use book_arguments::{Ask, BookWords};
use book_file::Book;
use book_lines::{Form, blanks_of, cards_of, check_text, list_text, machines_text};
use book_sheet::sheet_of;
use job_facts::Refusal;
use sql_tables::Version;
use std::alloc::{AllocError, Global};
use subcommands::End;

/// The output of a subcommand, and the outcome of the run.
#[derive(Drop)]
pub struct Answer {
    /// The text to print.
    pub text: Vec<u8>,
    /// The outcome of the run if the text is printed.
    pub end: End,
}

/// Returns the output of the subcommand `words` on the database `book`, and the outcome of the run.
/// If the rows aren't sound, only `check` has output.
///
/// # Errors
///
/// Returns `AllocError` if an allocation fails.
pub fn answer_to(alloc: Global, words: &BookWords, book: &Book) -> Result<Answer, AllocError>
    requires { HasVerdict book.now.tables book.now.failing }
    ensures { IfOk result (IsAnswer words.now book.now) }
{
    let form = form_of(words.json);
    match book.failing {
        None => sound_answer(alloc, form, book, &words.ask),
        Some(rule) => damaged_answer(alloc, form, book, &words.ask, rule),
    }
}

fn form_of(is_json: bool) -> Form
    ensures { result ≡ form_of is_json }
{
    if is_json { Form::Json } else { Form::Columns }
}

fn number_of(version: Version) -> u64
    ensures { result ≡ number_of version }
{
    match version {
        Version::One => 1,
        Version::Two => 2,
        Version::Three => 3,
    }
}

// Returns the answer for a database whose first broken rule is `rule`.
fn damaged_answer(
    alloc: Global,
    form: Form,
    book: &Book,
    ask: &Ask,
    rule: Rule,
) -> Result<Answer, AllocError>
    ensures { IfOk result (λ a. (a.text.items ≡ damaged_text form book.now ask.now rule)
        × (a.end ≡ End.Damaged)) }
{
    let text = match ask {
        Ask::Check => check_text(
            alloc,
            form,
            number_of(book.version),
            Some(rule),
            &book.tables,
        )?,
        _ => Vec::new(alloc),
    };
    let end = End::Damaged;
    Ok(Answer { text, end })
}

// Returns the answer for a database with sound rows.
fn sound_answer(alloc: Global, form: Form, book: &Book, ask: &Ask) -> Result<Answer, AllocError>
    requires { IsBook book.now.tables }
    ensures { IfOk result (Gives (sound_text form book.now ask.now)) }
{
    let tables = &book.tables;
    match ask {
        Ask::Check => {
            let text = check_text(alloc, form, number_of(book.version), None, tables)?;
            Ok(done(text))
        }
        Ask::Lists => {
            let text = list_text(alloc, form, book.size, tables)?;
            Ok(done(text))
        }
        Ask::Cards { batch } => {
            let found = cards_of(alloc, form, tables, batch)?;
            Ok(text_or(alloc, Refusal::BatchUnknown, found))
        }
        Ask::Blanks { product, state } => {
            let found = blanks_of(alloc, form, tables, product, *state)?;
            Ok(text_or(alloc, Refusal::ProductUnknown, found))
        }
        Ask::Machines => {
            let text = machines_text(alloc, form, tables)?;
            Ok(done(text))
        }
        Ask::Sheet { batch } => {
            let found = sheet_of(alloc, tables, batch)?;
            Ok(text_or(alloc, Refusal::BatchUnknown, found))
        }
    }
}

fn done(text: Vec<u8>) -> Answer
    ensures { Gives (Ok text.items) result }
{
    let end = End::Done;
    Answer { text, end }
}

// Returns the answer with the text `found`, or with the refusal `missing` if there is no text.
fn text_or(alloc: Global, missing: Refusal, found: Option<Vec<u8>>) -> Answer
    ensures { Gives (text_or missing (option_map (λ text. text.items) found)) result }
{
    match found {
        Some(text) => done(text),
        None => Answer {
            text: Vec::new(alloc),
            end: End::NotReported(missing),
        },
    }
}
