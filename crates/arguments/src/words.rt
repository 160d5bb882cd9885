//! Reads the subcommand and its options from the arguments of `persod`.
ghost use Rattle.std.specs.Prelude.{◌≡◌, ◌≤◌, ◌<◌, ◌^◌, ℕ, [], IfOk, IfErr, IfSome, IsTrue, ◌↔◌};
ghost use Rattle.std.specs.Prelude.{None, Some, map, true};
ghost use Rattle.clap.specs.Words.{HasKind, HasMatchesOf, Kinds, app_of, fault_of};
ghost use Rattle.clap.specs.Words.{found_of, is_simple_and_free, rows_of, subcommand_rows_of};
ghost use Rattle.arguments.specs.Words.{FeedsNot, HasName, InRange, IsNumber, IsRefusal};
ghost use Rattle.arguments.specs.Words.{IsRefusedBy, LacksName, Means, ReadsAs, ReadsFeed, ReadsNot};
ghost use Rattle.arguments.specs.Words.{ReadsPlan, ReadsReport, ReadsServe, ReportsNot, ServesNot};
ghost use Rattle.arguments.specs.Words.{UsesStreams, program};
ghost use Rattle.arguments.specs.declared.words.WordsFault.TheVariants.{Memory};
ghost use Rattle.arguments.specs.declared.words.ValueFault.TheVariants as lacks;

use crate::commands::program;
use clap::error::ErrorKind;
use clap::{ArgMatches, Command, Error};
use std::alloc::{AllocError, Global};
use std::convert::AsStr;
use std::{fmt, io};
use store_data::Name;

/// The usage error for arguments that `clap` accepts but whose values are missing or out of range.
/// `clap` checks every range itself, so no arguments are known that lead to it.
const OUT_OF_RANGE: &str = "error: a value is missing or out of range\n";

/// A subcommand with its options. Each value is in its range.
#[derive(PartialEq, Eq, Drop)]
pub enum Words {
    /// Prints the commands of a batch. A STORE DATA command has at most `max` bytes of data, 16 to
    /// 255, and `low`, 0 to 31, in the low five bits of P1. If `check` is `true`, unencrypted EMV
    /// records are checked.
    Plan { max: u8, low: u8, check: bool },
    /// Serves a script of requests with a store in memory.
    Drill,
    /// Serves `turns` connections, 1 to 1,000,000, on `port` of 127.0.0.1, 1 to 65,535, one after
    /// another. `db` is the path of the database file.
    Serve { db: String, port: u16, turns: u32 },
    /// Prints the report of `batch`. `db` is the path of the database file.
    Report { db: String, batch: Name },
    /// Personalises cards as a machine. The server listens on `port` of 127.0.0.1, 1 to 65,535.
    Feed { port: u16, start: FeedStart },
}

/// The options of `feed`: the machine, its boot number, 1 to 9,999,999,999, and the batch that its
/// cards are for.
#[derive(Clone, Copy, PartialEq, Eq)]
pub struct FeedStart {
    pub machine: Name,
    pub boot: u64,
    pub batch: Name,
}

impl fmt::Debug for Words {
    fn fmt<W: fmt::Write>(&self, f: &mut fmt::Formatter<W>) -> fmt::Result {
        f.write_str(match self {
            Words::Plan { .. } => "Plan",
            Words::Drill => "Drill",
            Words::Serve { .. } => "Serve",
            Words::Report { .. } => "Report",
            Words::Feed { .. } => "Feed",
        })
    }
}

impl Words {
    /// Returns `true` if the subcommand uses only the standard streams, no file and no socket.
    pub fn uses_streams(&self) -> bool
        ensures { IsTrue result ↔ UsesStreams self.now }
    {
        matches!(self, Words::Plan { .. } | Words::Drill)
    }
}

/// A reason why the arguments contain no subcommand to run.
#[derive(Debug, Drop)]
pub enum WordsFault {
    /// The arguments ask for help: the text is for standard output, the exit status is 0.
    Help(String),
    /// The arguments ask for the version: the text is for standard output, the exit status is 0.
    Version(String),
    /// The arguments are wrong: the text is for standard error, the exit status is 2.
    Usage(String),
    /// An argument isn't UTF-8.
    NotText,
    /// The value for a batch or a machine isn't a name.
    BadName,
    /// An allocation failed.
    Memory,
}

impl From<io::Error> for WordsFault {
    ghost use Rattle.std.specs.IoError.{error_kind};
    ghost use Rattle.arguments.specs.Words.{fault_of_io};

    ghost from_gives = { λ error fault. fault ≡ fault_of_io (error_kind error) };

    fn from(error: io::Error) -> WordsFault {
        if error.kind() == io::ErrorKind::OutOfMemory {
            WordsFault::Memory
        } else {
            WordsFault::NotText
        }
    }
}

impl From<AllocError> for WordsFault {
    ghost from_gives = { λ _ fault. fault ≡ Memory };

    fn from(_error: AllocError) -> WordsFault {
        WordsFault::Memory
    }
}

/// Returns the subcommand that `words` ask for. The first of them is the name of the program, as
/// `env::args` returns it.
///
/// # Errors
///
/// - `Help`, `Version`: the arguments ask for help or for the version. The text is `clap`'s.
/// - `Usage`: `clap` refuses the arguments, and the text is `clap`'s, or a value is missing or out
///   of range.
/// - `BadName`: the value of `--batch` or `--machine` isn't a name.
/// - `Memory`: an allocation fails.
pub fn read_words<S: AsStr>(alloc: Global, words: &[S]) -> Result<Words, WordsFault>
    ensures ranges { IfOk result InRange }
    ensures meaning { IfOk result (Means (map S.text words.now)) }
    ensures taken { IfOk result (λ _. fault_of program (map S.text words.now) ≡ []) }
    ensures refusal { IfErr result (IsRefusal (map S.text words.now)) }
{
    let matches = matches_of(alloc, program(alloc)?, words)?;
    match words_of(alloc, &matches) {
        Ok(words) => Ok(words),
        Err(ValueFault::Nothing) => Err(WordsFault::Usage(String::from_str(alloc, OUT_OF_RANGE)?)),
        Err(ValueFault::BadName) => Err(WordsFault::BadName),
        Err(ValueFault::Memory) => Err(WordsFault::Memory),
    }
}

/// Returns what `clap` finds in the arguments `words` of a program. `command` describes its command
/// line.
///
/// # Errors
///
/// - `Help`, `Version`: the arguments ask for help or for the version. The text is `clap`'s.
/// - `Usage`: `clap` refuses the arguments. The text is `clap`'s.
/// - `Memory`: an allocation fails.
pub fn matches_of<'a, S: AsStr>(
    alloc: Global,
    command: Command<'a>,
    words: &'a [S],
) -> Result<ArgMatches<'a>, WordsFault>
    requires { is_simple_and_free (app_of command) ≡ true }
    ensures matches { IfOk result (HasMatchesOf (app_of command.entry)
        (map S.text words.entry.now)) }
    ensures taken { IfOk result
        (λ _. fault_of (app_of command.entry) (map S.text words.entry.now) ≡ []) }
    ensures refused { IfErr result
        (IsRefusedBy (fault_of (app_of command.entry) (map S.text words.entry.now))) }
{
    match command.try_get_matches_from(words) {
        Ok(matches) => Ok(matches),
        Err(error) => Err(refusal_of(alloc, &error)?),
    }
}

/// A reason why arguments that `clap` accepts can't be read.
#[derive(Clone, Copy, Debug, PartialEq, Eq)]
pub enum ValueFault {
    /// A value is missing, or isn't one of those that are allowed.
    Nothing,
    /// A value isn't a name.
    BadName,
    /// An allocation failed.
    Memory,
}

impl From<AllocError> for ValueFault {
    ghost from_gives = { λ _ why. why ≡ lacks.Memory };

    fn from(_error: AllocError) -> ValueFault {
        ValueFault::Memory
    }
}

// Reads the subcommand that `clap` found.
fn words_of(alloc: Global, matches: &ArgMatches<'_>) -> Result<Words, ValueFault>
    ensures ranges { IfOk result InRange }
    ensures meaning { IfOk result (ReadsAs (subcommand_rows_of matches.now)) }
    ensures unread { IfErr result (ReadsNot (subcommand_rows_of matches.now)) }
{
    let Some((name, values)) = matches.subcommand() else {
        return Err(ValueFault::Nothing);
    };
    match name {
        "plan" => plan_of(values).ok_or(ValueFault::Nothing),
        "drill" => Ok(Words::Drill),
        "serve" => serve_of(alloc, values),
        "report" => report_of(alloc, values),
        "feed" => feed_of(values),
        _ => Err(ValueFault::Nothing),
    }
}

// Reads the options of `plan`.
fn plan_of(values: &ArgMatches<'_>) -> Option<Words>
    ensures ranges { IfSome result InRange }
    ensures values { IfSome result (ReadsPlan (rows_of (found_of values.now))) }
    ensures nothing { result ≡ None → (w : Words) → InRange w
        → ¬ ReadsPlan (rows_of (found_of values.now)) w }
{
    Some(Words::Plan {
        max: number(values, "max", 16, 255)? as u8,
        low: number(values, "low", 0, 31)? as u8,
        check: values.get_one("check")?,
    })
}

// Reads the options of `serve`.
fn serve_of(alloc: Global, values: &ArgMatches<'_>) -> Result<Words, ValueFault>
    ensures ranges { IfOk result InRange }
    ensures values { IfOk result (ReadsServe (rows_of (found_of values.now))) }
    ensures unread { IfErr result (ServesNot (rows_of (found_of values.now))) }
{
    let Some(db) = values.get_str("db") else {
        return Err(ValueFault::Nothing);
    };
    let Some(port) = number(values, "port", 1, 65_535) else {
        return Err(ValueFault::Nothing);
    };
    let Some(turns) = number(values, "turns", 1, 1_000_000) else {
        return Err(ValueFault::Nothing);
    };
    Ok(Words::Serve {
        db: String::from_str(alloc, db)?,
        port: port as u16,
        turns: turns as u32,
    })
}

// Reads the options of `report`.
fn report_of(alloc: Global, values: &ArgMatches<'_>) -> Result<Words, ValueFault>
    ensures ranges { IfOk result InRange }
    ensures values { IfOk result (ReadsReport (rows_of (found_of values.now))) }
    ensures unread { IfErr result (ReportsNot (rows_of (found_of values.now))) }
{
    let Some(db) = values.get_str("db") else {
        return Err(ValueFault::Nothing);
    };
    let batch = name_of(values, "batch")?;
    Ok(Words::Report {
        db: String::from_str(alloc, db)?,
        batch,
    })
}

// Reads the options of `feed`.
fn feed_of(values: &ArgMatches<'_>) -> Result<Words, ValueFault>
    ensures ranges { IfOk result InRange }
    ensures values { IfOk result (ReadsFeed (rows_of (found_of values.now))) }
    ensures unread { IfErr result (FeedsNot (rows_of (found_of values.now))) }
{
    let Some(port) = number(values, "port", 1, 65_535) else {
        return Err(ValueFault::Nothing);
    };
    let Some(boot) = number(values, "boot", 1, 9_999_999_999) else {
        return Err(ValueFault::Nothing);
    };
    let machine = name_of(values, "machine")?;
    let batch = name_of(values, "batch")?;
    let port = port as u16;
    let start = FeedStart {
        machine,
        boot,
        batch,
    };
    Ok(Words::Feed { port, start })
}

/// Returns the value of the option `option` as a name.
///
/// # Errors
///
/// - `Nothing`: the option has no value.
/// - `BadName`: its value isn't a name.
pub fn name_of(values: &ArgMatches<'_>, option: &str) -> Result<Name, ValueFault>
    ensures name { IfOk result (HasName option.now (rows_of (found_of values.now))) }
    ensures unread { IfErr result (LacksName option.now (rows_of (found_of values.now))) }
{
    let Some(text) = values.get_str(option) else {
        return Err(ValueFault::Nothing);
    };
    let Some(name) = Name::new(text.as_bytes()) else {
        return Err(ValueFault::BadName);
    };
    Ok(name)
}

// Reads the value of the option `name` as a number from `low` to `high`.
fn number(values: &ArgMatches<'_>, name: &str, low: u64, high: u64) -> Option<u64>
    ensures some { IfSome result (λ n.
        IsNumber name.now (rows_of (found_of values.now)) n × (low ≤ n) × (n ≤ high)) }
    ensures none { result ≡ None → (n : ℕ) → (low ≤ n) → (n ≤ high)
        → ¬ IsNumber name.now (rows_of (found_of values.now)) n }
{
    let number = values.get_one(name)?;
    if low <= number && number <= high {
        Some(number)
    } else {
        None
    }
}

fn refusal_of(alloc: Global, error: &Error) -> Result<WordsFault, AllocError>
    ensures { IfOk result (λ fault. (kinds : Kinds) → HasKind kinds error.now
        → IsRefusedBy kinds fault) }
{
    let kind = error.kind();
    if kind == ErrorKind::OutOfMemory {
        return Ok(WordsFault::Memory);
    }
    let text = format!(in alloc; "{error}")?;
    match kind {
        ErrorKind::DisplayHelp => Ok(WordsFault::Help(text)),
        ErrorKind::DisplayVersion => Ok(WordsFault::Version(text)),
        _ => Ok(WordsFault::Usage(text)),
    }
}
