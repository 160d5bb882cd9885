//! Builds the command line of `shopbook` for `clap`.
ghost use Rattle.std.specs.Prelude.{◌≡◌, IfOk};
ghost use Rattle.clap.specs.Words.{app_of};
ghost use Rattle.arguments.specs.Words.{IsCommand};
ghost use Rattle.book_arguments.specs.Words.{blanks_command, book_command, cards_command};
ghost use Rattle.book_arguments.specs.Words.{file_command, program, sheet_command};

use arguments::{flag, text, with_argument, with_subcommand};
use clap::Command;
use std::alloc::{AllocError, Global};

/// The program's version, as `--version` prints it.
const VERSION: &str = "1.0.0";

/// The description of `cards`.
const OF_CARDS: &str =
    "List the sessions of a batch in file order; records without a session are not listed";

/// The description of `blanks`.
const OF_BLANKS: &str = "List the charged blanks of a product, and their totals";

/// The description of `machines`.
const OF_MACHINES: &str = "List the machines with their next boot numbers, then all other clients";

/// The description of `sheet`.
const OF_SHEET: &str = "Print one HTML page about a batch";

/// The description of `--json`.
const OF_JSON: &str = "Print a JSON object on each line";

/// The description of `--db`.
const DATABASE: &str = "Path of the database file; no server may have it open";

/// The states that `--state` takes.
const STATES: &str = "Only blanks in this state: running, good, spoiled or discarded; default: all";

/// The last line of each help.
const STATUSES: &str =
    "Exit statuses: 0 done; 1 refused; 2 wrong arguments; 3 storage, device or memory";

/// Returns the command of the program, with its subcommands.
pub(crate) fn program<'a>(alloc: Global) -> Result<Command<'a>, AllocError>
    ensures { IfOk result (λ c. app_of c ≡ program) }
{
    let check = "Audit the database file and count the rows of its tables";
    let list = "List products, lots and batches";
    let program = Command::new(alloc, "shopbook")
        .version(VERSION)
        .about("Reads and audits the database file of a job server, without changing it")
        .after_help(STATUSES)
        .subcommand_required(true);
    let program = with_subcommand(program, book_command(alloc, "check", check))?;
    let program = with_subcommand(program, book_command(alloc, "list", list))?;
    let program = with_subcommand(program, cards_command(alloc))?;
    let program = with_subcommand(program, blanks_command(alloc))?;
    let program = with_subcommand(program, book_command(alloc, "machines", OF_MACHINES))?;
    with_subcommand(program, sheet_command(alloc))
}

// A subcommand with `--db`.
fn file_command<'a>(alloc: Global, name: &'a str, about: &'a str) -> Result<Command<'a>, AllocError>
    ensures { IfOk result (IsCommand (file_command name.entry.now)) }
{
    let db = text(alloc, "db", "PATH", true, DATABASE);
    let command = Command::new(alloc, name).about(about).after_help(STATUSES);
    with_argument(command, db)
}

// A subcommand with `--db` and `--json`.
fn book_command<'a>(alloc: Global, name: &'a str, about: &'a str) -> Result<Command<'a>, AllocError>
    ensures { IfOk result (IsCommand (book_command name.entry.now)) }
{
    with_argument(
        file_command(alloc, name, about)?,
        flag(alloc, "json", OF_JSON),
    )
}

fn cards_command<'a>(alloc: Global) -> Result<Command<'a>, AllocError>
    ensures { IfOk result (IsCommand cards_command) }
{
    let batch = text(alloc, "batch", "NAME", true, "Name of the batch");
    with_argument(book_command(alloc, "cards", OF_CARDS)?, batch)
}

fn blanks_command<'a>(alloc: Global) -> Result<Command<'a>, AllocError>
    ensures { IfOk result (IsCommand blanks_command) }
{
    let product = text(alloc, "product", "NAME", true, "Name of the product");
    let state = text(alloc, "state", "STATE", false, STATES);
    let command = book_command(alloc, "blanks", OF_BLANKS)?;
    with_argument(with_argument(command, product)?, state)
}

fn sheet_command<'a>(alloc: Global) -> Result<Command<'a>, AllocError>
    ensures { IfOk result (IsCommand sheet_command) }
{
    let batch = text(alloc, "batch", "NAME", true, "Name of the batch");
    with_argument(file_command(alloc, "sheet", OF_SHEET)?, batch)
}
