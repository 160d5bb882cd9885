//! Reads the subcommand, the path and the output form from the arguments of `shopbook`.
ghost use Rattle.std.specs.Prelude.{◌≡◌, [], Bool, IfErr, IfOk, IfSome, None, codes, map};
ghost use Rattle.clap.specs.Words.{fault_of, found_of, rows_of};
ghost use Rattle.clap.specs.Words.{subcommand_rows_of};
ghost use Rattle.book_lines.specs.Blanks.{state_word};
ghost use Rattle.book_lines.specs.declared.blank_state.BlankState.{BlankState as StateValue};
ghost use Rattle.book_arguments.specs.Words.{Asks, AsksNot, HasState, IsForm, IsRefusal};
ghost use Rattle.book_arguments.specs.Words.{IsUnread, LacksState, Means, Reads};
ghost use Rattle.book_arguments.specs.Words.{ReadsAs, ReadsNot, program};

use crate::commands::program;
use arguments::{ValueFault, WordsFault, matches_of, name_of};
use book_lines::BlankState;
use clap::ArgMatches;
use std::alloc::{AllocError, Global};
use std::convert::AsStr;
use store_data::Name;

/// A subcommand of `shopbook` with its own options.
#[derive(Clone, Copy, PartialEq, Eq)]
pub enum Ask {
    /// Prints the verdict of the audit and the number of rows of each table.
    Check,
    /// Lists the products, lots and batches.
    Lists,
    /// Lists the sessions of `batch`, in the order of its records.
    Cards {
        batch: Name,
    },
    /// Lists the charged blanks of `product`: all of them, or those in `state`.
    Blanks {
        product: Name,
        state: Option<BlankState>,
    },
    /// Lists the machines and the other clients that ever sent a request.
    Machines,
    /// Prints one HTML page about `batch`.
    Sheet {
        batch: Name,
    },
}

/// The arguments of a run of `shopbook`.
#[derive(Drop, PartialEq, Eq)]
pub struct BookWords {
    pub ask: Ask,
    /// The path of the database file.
    pub db: String,
    /// `true` if each line is printed as a JSON object.
    pub json: bool,
}

/// Returns the meaning of the arguments `words`. The first of them is the name of the program, as
/// `env::args` returns it.
///
/// # Errors
///
/// - `Help`, `Version`: the arguments ask for help or for the version. The text is `clap`'s.
/// - `Usage`: `clap` refuses the arguments, and the text is `clap`'s, or the value of `--state`
///   isn't a state.
/// - `BadName`: the value of `--batch` or `--product` isn't a name.
/// - `Memory`: an allocation fails.
pub fn read_book_words<S: AsStr>(alloc: Global, words: &[S]) -> Result<BookWords, WordsFault>
    ensures meaning { IfOk result (Means (map S.text words.now)) }
    ensures taken { IfOk result (λ _. fault_of program (map S.text words.now) ≡ []) }
    ensures refusal { IfErr result (IsRefusal (map S.text words.now)) }
{
    let matches = matches_of(alloc, program(alloc)?, words)?;
    match words_of(alloc, &matches) {
        Ok(words) => Ok(words),
        Err(ValueFault::Nothing) => Err(WordsFault::Usage(bad_state(alloc, &matches)?)),
        Err(ValueFault::BadName) => Err(WordsFault::BadName),
        Err(ValueFault::Memory) => Err(WordsFault::Memory),
    }
}

// The usage error for arguments that `clap` accepts: it has checked everything except the state.
fn bad_state(alloc: Global, matches: &ArgMatches<'_>) -> Result<String, AllocError> {
    let state = match matches.subcommand() {
        Some((_, values)) => values.get_str("state").unwrap_or(""),
        None => "",
    };
    format!(in alloc;
        "error: invalid value '{state}' for '--state <STATE>': use running, good, \
        spoiled or discarded\n"
    )
}

// Reads the subcommand that `clap` found.
fn words_of(alloc: Global, matches: &ArgMatches<'_>) -> Result<BookWords, ValueFault>
    ensures meaning { IfOk result (ReadsAs (subcommand_rows_of matches.now)) }
    ensures unread { IfErr result (ReadsNot (subcommand_rows_of matches.now)) }
{
    match matches.subcommand() {
        None => Err(ValueFault::Nothing),
        Some((name, values)) => read(alloc, name, values),
    }
}

// Reads the options of the subcommand `name`.
fn read(alloc: Global, name: &str, values: &ArgMatches<'_>) -> Result<BookWords, ValueFault>
    ensures meaning { IfOk result (Reads name.now (rows_of (found_of values.now))) }
    ensures unread { IfErr result (IsUnread name.now (rows_of (found_of values.now))) }
{
    let ask = ask_of(name, values)?;
    let Some(db) = values.get_str("db") else {
        return Err(ValueFault::Nothing);
    };
    let Some(json) = json_of(name, values) else {
        return Err(ValueFault::Nothing);
    };
    let db = String::from_str(alloc, db)?;
    Ok(BookWords { ask, db, json })
}

// Reads `--json`, which `sheet` doesn't have.
fn json_of(name: &str, values: &ArgMatches<'_>) -> Option<bool>
    ensures some { IfSome result (IsForm name.now (rows_of (found_of values.now))) }
    ensures none { result ≡ None → (json : Bool)
        → ¬ IsForm name.now (rows_of (found_of values.now)) json }
{
    match name {
        "sheet" => Some(false),
        _ => values.get_one("json"),
    }
}

// Reads the options of the subcommand `name`, except `--db` and `--json`.
fn ask_of(name: &str, values: &ArgMatches<'_>) -> Result<Ask, ValueFault>
    ensures meaning { IfOk result (Asks name.now (rows_of (found_of values.now))) }
    ensures unread { IfErr result (AsksNot name.now (rows_of (found_of values.now))) }
{
    match name {
        "check" => Ok(Ask::Check),
        "list" => Ok(Ask::Lists),
        "cards" => cards_of(values),
        "blanks" => blanks_of(values),
        "machines" => Ok(Ask::Machines),
        "sheet" => sheet_of(values),
        _ => Err(ValueFault::Nothing),
    }
}

// Reads the options of `cards`.
fn cards_of(values: &ArgMatches<'_>) -> Result<Ask, ValueFault>
    ensures meaning { IfOk result (Asks (codes "cards") (rows_of (found_of values.now))) }
    ensures unread { IfErr result (AsksNot (codes "cards") (rows_of (found_of values.now))) }
{
    let batch = name_of(values, "batch")?;
    Ok(Ask::Cards { batch })
}

// Reads the options of `blanks`.
fn blanks_of(values: &ArgMatches<'_>) -> Result<Ask, ValueFault>
    ensures meaning { IfOk result (Asks (codes "blanks") (rows_of (found_of values.now))) }
    ensures unread { IfErr result (AsksNot (codes "blanks") (rows_of (found_of values.now))) }
{
    let product = name_of(values, "product")?;
    let state = state_of(values)?;
    Ok(Ask::Blanks { product, state })
}

// Reads the options of `sheet`.
fn sheet_of(values: &ArgMatches<'_>) -> Result<Ask, ValueFault>
    ensures meaning { IfOk result (Asks (codes "sheet") (rows_of (found_of values.now))) }
    ensures unread { IfErr result (AsksNot (codes "sheet") (rows_of (found_of values.now))) }
{
    let batch = name_of(values, "batch")?;
    Ok(Ask::Sheet { batch })
}

// Reads `--state`, if it is given.
fn state_of(values: &ArgMatches<'_>) -> Result<Option<BlankState>, ValueFault>
    ensures state { IfOk result (HasState (rows_of (found_of values.now))) }
    ensures unread { IfErr result (LacksState (rows_of (found_of values.now))) }
{
    match values.get_str("state") {
        None => Ok(None),
        Some(word) => match state_named(word) {
            None => Err(ValueFault::Nothing),
            Some(state) => Ok(Some(state)),
        },
    }
}

// Returns the state that is written as `word`.
fn state_named(word: &str) -> Option<BlankState>
    ensures some { IfSome result (λ state. word.now ≡ state_word state) }
    ensures none { result ≡ None → (state : StateValue) → ¬ (word.now ≡ state_word state) }
{
    match word {
        "running" => Some(BlankState::Running),
        "good" => Some(BlankState::Good),
        "spoiled" => Some(BlankState::Spoiled),
        "discarded" => Some(BlankState::Discarded),
        _ => None,
    }
}
