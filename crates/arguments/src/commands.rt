//! Builds the command line of `persod` for `clap`, with parts that other programs use too.
//!
//! A function that adds a part takes the command by value: the prover is slow at a function that
//! owns a command and has many exits, because each exit drops it.
ghost use Rattle.std.specs.Prelude.{◌≡◌, IfOk, codes, true};
ghost use Rattle.clap.specs.Words.{App, Rule, app_of, with_rule, with_subcommand};
ghost use Rattle.arguments.specs.Words.{IsArgument, IsCommand, boot_needed, drill_command};
ghost use Rattle.arguments.specs.Words.{feed_command, flag, number_needed, number_option};
ghost use Rattle.arguments.specs.Words.{number_or, plan_command, port_needed, program};
ghost use Rattle.arguments.specs.Words.{report_command, serve_command, text_rule};

use clap::builder::ValueParser;
use clap::{Arg, ArgAction, Command, value_parser};
use std::alloc::{AllocError, Global};

/// The program's version, as `--version` prints it.
const VERSION: &str = "1.0.0";

/// The end of the help of `drill`.
const STATUSES: &str = "Exit statuses: 0 done; 1 refused; 2 wrong arguments; 3 storage, device or \
    memory";

/// The end of the help of `plan`.
const STATUSES_OF_PLAN: &str = "Exit statuses: 0 done; 1 refused; 2 wrong arguments; 3 storage, \
    device or memory\n\n\
    A refused batch prints `refused N row R`. docs/PROFILE.md lists the faults by their number N.\n\
    With PERSOD_LOG=1, an event line has the line, the field and the cause (docs/EVENTS.md).\n\
    The cards get these commands only if the options are the settings of the batch's product.";

/// The end of the help of the program, and of the subcommands that write event lines.
const STATUSES_AND_EVENTS: &str = "Exit statuses: 0 done; 1 refused; 2 wrong arguments; 3 storage, \
    device or memory\n\n\
    Environment: PERSOD_LOG=1 writes event lines to standard error, and PERSOD_LOG=all also a line \
    for each accepted request (docs/EVENTS.md). Unset, empty, 0 and off write none.";

/// Returns the command of the program, with its subcommands.
pub(crate) fn program<'a>(alloc: Global) -> Result<Command<'a>, AllocError>
    ensures { IfOk result (λ c. app_of c ≡ program) }
{
    let program = Command::new(alloc, "persod")
        .version(VERSION)
        .about("A job server for card personalisation")
        .after_help(STATUSES_AND_EVENTS)
        .subcommand_required(true);
    let program = with_subcommand(program, plan_command(alloc))?;
    let program = with_subcommand(program, Ok(drill_command(alloc)))?;
    let program = with_subcommand(program, serve_command(alloc))?;
    let program = with_subcommand(program, report_command(alloc))?;
    with_subcommand(program, feed_command(alloc))
}

fn plan_command<'a>(alloc: Global) -> Result<Command<'a>, AllocError>
    ensures { IfOk result (IsCommand plan_command) }
{
    let command = Command::new(alloc, "plan")
        .about("Print the commands for each record of a batch file, read from standard input")
        .after_help(STATUSES_OF_PLAN);
    let command = with_argument(
        command,
        number_or(
            alloc,
            "max",
            value_parser!(u8).range(16..=255),
            "255",
            "Maximum number of data bytes in a STORE DATA command, 16 to 255",
        ),
    )?;
    let command = with_argument(
        command,
        number_or(
            alloc,
            "low",
            value_parser!(u8).range(0..=31),
            "0",
            "Bits 5 to 1 of P1 in every STORE DATA command, 0 to 31",
        ),
    )?;
    let help = "Check that each unencrypted EMV record has the form of EMV Book 3";
    with_argument(command, flag(alloc, "check", help))
}

fn drill_command<'a>(alloc: Global) -> Command<'a>
    ensures { IsCommand drill_command result }
{
    Command::new(alloc, "drill")
        .about("Serve a script of requests, read from standard input, with a store in memory")
        .after_help(STATUSES)
}

fn serve_command<'a>(alloc: Global) -> Result<Command<'a>, AllocError>
    ensures { IfOk result (IsCommand serve_command) }
{
    let command = Command::new(alloc, "serve")
        .about("Serve requests on 127.0.0.1 with a database file, one connection after another")
        .after_help(STATUSES_AND_EVENTS);
    let help = "Path of the database file; created if it does not exist";
    let command = with_argument(command, text(alloc, "db", "PATH", true, help))?;
    let help = "Port on 127.0.0.1, 1 to 65535";
    let command = with_argument(command, port_needed(alloc, help))?;
    let turns = value_parser!(u32).range(1..=1_000_000);
    let help = "Number of connections to serve before exiting, 1 to 1000000";
    with_argument(command, number_needed(alloc, "turns", turns, help))
}

fn report_command<'a>(alloc: Global) -> Result<Command<'a>, AllocError>
    ensures { IfOk result (IsCommand report_command) }
{
    let command = Command::new(alloc, "report")
        .about("Print the report of a batch")
        .after_help(STATUSES_AND_EVENTS);
    let help = "Path of the database file; it must exist, and no server may have it open";
    let command = with_argument(command, text(alloc, "db", "PATH", true, help))?;
    with_argument(command, batch_needed(alloc))
}

fn feed_command<'a>(alloc: Global) -> Result<Command<'a>, AllocError>
    ensures { IfOk result (IsCommand feed_command) }
{
    let command = Command::new(alloc, "feed")
        .about(
            "Personalise cards as a machine; each line of standard input is a card: SERIAL SW ..",
        )
        .after_help(STATUSES_AND_EVENTS);
    let help = "Port of the server on 127.0.0.1, 1 to 65535";
    let command = with_argument(command, port_needed(alloc, help))?;
    let help = "Name of the machine";
    let command = with_argument(command, text(alloc, "machine", "NAME", true, help))?;
    let command = with_argument(command, boot_needed(alloc))?;
    with_argument(command, batch_needed(alloc))
}

// `--batch NAME`, required
fn batch_needed<'a>(alloc: Global) -> Arg<'a>
    ensures { IsArgument (text_rule (codes "batch") true) result }
{
    text(alloc, "batch", "NAME", true, "Name of the batch")
}

// `--port N`, required
fn port_needed<'a>(alloc: Global, help: &'a str) -> Arg<'a>
    ensures { IsArgument port_needed result }
{
    number_needed(alloc, "port", value_parser!(u16).range(1..=65_535), help)
}

// `--boot N`, required
fn boot_needed<'a>(alloc: Global) -> Arg<'a>
    ensures { IsArgument boot_needed result }
{
    let numbers = ValueParser::unsigned(1, 9_999_999_999);
    let help = "Boot number, 1 to 9999999999; must increase at every start of the machine. With \
        at most 900719924, all request numbers are below 2^53";
    number_needed(alloc, "boot", numbers, help)
}

// `--name N`
fn number_option<'a>(
    alloc: Global,
    name: &'a str,
    parser: ValueParser<'a>,
    help: &'a str,
) -> Arg<'a>
    ensures { IsArgument (number_option name.entry.now parser.entry) result }
{
    Arg::new(alloc, name)
        .long(name)
        .value_name("N")
        .value_parser(parser)
        .help(help)
}

// `--name N`, required
fn number_needed<'a>(
    alloc: Global,
    name: &'a str,
    parser: ValueParser<'a>,
    help: &'a str,
) -> Arg<'a>
    ensures { IsArgument (number_needed name.entry.now parser.entry) result }
{
    number_option(alloc, name, parser, help).required(true)
}

// `--name N`, with a default
fn number_or<'a>(
    alloc: Global,
    name: &'a str,
    parser: ValueParser<'a>,
    default: &'a str,
    help: &'a str,
) -> Arg<'a>
    ensures { IsArgument (number_or name.entry.now parser.entry default.entry.now) result }
{
    number_option(alloc, name, parser, help).default_value(default)
}

/// Returns the option `--name WORD`, which is required if `needed` is `true`.
pub fn text<'a>(alloc: Global, name: &'a str, word: &'a str, needed: bool, help: &'a str) -> Arg<'a>
    ensures { IsArgument (text_rule name.entry.now needed) result }
{
    Arg::new(alloc, name)
        .long(name)
        .value_name(word)
        .required(needed)
        .help(help)
}

/// Returns the flag `--name`, which is off by default.
pub fn flag<'a>(alloc: Global, name: &'a str, help: &'a str) -> Arg<'a>
    ensures { IsArgument (flag name.entry.now) result }
{
    Arg::new(alloc, name)
        .long(name)
        .action(ArgAction::SetTrue)
        .help(help)
}

/// Adds `argument` to `command`.
///
/// # Errors
///
/// Returns `AllocError` if an allocation fails.
pub fn with_argument<'a>(command: Command<'a>, argument: Arg<'a>) -> Result<Command<'a>, AllocError>
    ensures { (app : App) (rule : Rule) → IsCommand app command.entry
        → IsArgument rule argument.entry → IfOk result (IsCommand (with_rule app rule)) }
{
    command.arg(argument)
}

/// Adds the subcommand `part` to `program`.
///
/// # Errors
///
/// Returns `AllocError` if `part` is this error, or if an allocation fails.
pub fn with_subcommand<'a>(
    program: Command<'a>,
    part: Result<Command<'a>, AllocError>,
) -> Result<Command<'a>, AllocError>
    ensures { (app sub : App) → app_of program.entry ≡ app → IfOk part.entry (IsCommand sub)
        → IfOk result (λ c. app_of c ≡ with_subcommand app sub.top) }
{
    program.subcommand(part?)
}
