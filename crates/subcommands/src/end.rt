//! The ends of a run, with their exit statuses and their words on standard error.
ghost use Rattle.std.specs.Prelude.{◌≡◌};
ghost use Rattle.subcommands.specs.Ends.{end_of_account, end_of_drill_stop, end_of_file};
ghost use Rattle.subcommands.specs.Ends.{end_of_feed_stop, end_of_plan_stop, end_of_serve_stop};
ghost use Rattle.subcommands.specs.Ends.{end_of_store, end_of_stream, end_of_words, exit_of};

use arguments::WordsFault;
use batch_import::RowFault;
use drill::{DrillFault, DrillStop};
use feeding::{FeedFault, FeedStop};
use job_facts::{NUMBER_RELEASED, Refusal, StoreFault};
use over_tables::{DAMAGED, FileFault, NOT_OURS};
use plan_print::{BatchFault, PlanStop};
use reports::AccountFault;
use server_run::ServeStop;
use std::error::Error;
use std::fmt;
use text_io::{RunStop, StreamFault};

/// The end of a run.
#[derive(Clone, Copy, Debug, PartialEq, Eq)]
pub enum End {
    /// The subcommand succeeded.
    Done,
    /// The arguments asked for help or for the version, and it was printed.
    Helped,
    /// The arguments are wrong. The error text was printed separately.
    Usage,
    /// An argument isn't UTF-8.
    NotText,
    /// The value for a batch, a machine or a product isn't a name.
    BadName,
    /// The first fault of the batch file.
    Refused(RowFault),
    /// The input has more than `MOST_INPUT` bytes.
    TooLarge,
    /// The number of the first malformed line of a script. The first line has number 1.
    BadLine(u64),
    /// The file can't be opened, isn't an SQLite database, or has another schema.
    NotOurs,
    /// The file has the right schema, but its rows don't represent sound contents.
    Damaged,
    /// The refusal of the report.
    NotReported(Refusal),
    /// An input line of `feed` is malformed.
    BadCard,
    /// A later boot of the machine released these request numbers.
    Released,
    /// The device with the database file failed, or is full.
    Storage,
    /// Ten consecutive tries brought no reply that changed anything.
    NoReply,
    /// The server can't listen on the port or accept connections, or `feed` can't connect to it.
    PortFailed,
    /// A read failed.
    ReadFailed,
    /// A write or a flush failed, or a write accepted no bytes.
    WriteFailed,
    /// An allocation failed.
    Memory,
}

impl From<PlanStop> for End {
    ghost from_gives = { λ stop end. end ≡ end_of_plan_stop stop };

    fn from(stop: PlanStop) -> End {
        match stop {
            RunStop::Own(BatchFault::Refused(fault)) => End::Refused(fault),
            RunStop::Own(BatchFault::TooLarge) => End::TooLarge,
            RunStop::Stream(fault) => End::from(fault),
        }
    }
}

impl From<DrillStop> for End {
    ghost from_gives = { λ stop end. end ≡ end_of_drill_stop stop };

    fn from(stop: DrillStop) -> End {
        match stop {
            RunStop::Own(DrillFault::BadLine(line)) => End::BadLine(line),
            RunStop::Own(DrillFault::Storage) => End::Storage,
            RunStop::Stream(fault) => End::from(fault),
        }
    }
}

impl From<StoreFault> for End {
    ghost from_gives = { λ fault end. end ≡ end_of_store fault };

    fn from(fault: StoreFault) -> End {
        match fault {
            StoreFault::Memory => End::Memory,
            StoreFault::Device | StoreFault::Full => End::Storage,
        }
    }
}

impl From<FileFault> for End {
    ghost from_gives = { λ fault end. end ≡ end_of_file fault };

    fn from(fault: FileFault) -> End {
        match fault {
            FileFault::NotOurs { cause: _ } => End::NotOurs,
            FileFault::Damaged { cause: _ } => End::Damaged,
            FileFault::Storage => End::Storage,
            FileFault::Memory => End::Memory,
        }
    }
}

impl From<ServeStop> for End {
    ghost from_gives = { λ stop end. end ≡ end_of_serve_stop stop };

    fn from(stop: ServeStop) -> End {
        match stop {
            ServeStop::Next => End::PortFailed,
            ServeStop::Write => End::WriteFailed,
            ServeStop::Memory => End::Memory,
            ServeStop::Store { fault } => End::from(fault),
        }
    }
}

impl From<AccountFault> for End {
    ghost from_gives = { λ fault end. end ≡ end_of_account fault };

    fn from(fault: AccountFault) -> End {
        match fault {
            AccountFault::Refused(why) => End::NotReported(why),
            AccountFault::Store(fault) => End::from(fault),
            AccountFault::Write => End::WriteFailed,
        }
    }
}

impl From<FeedStop> for End {
    ghost from_gives = { λ stop end. end ≡ end_of_feed_stop stop };

    fn from(stop: FeedStop) -> End {
        match stop {
            RunStop::Own(FeedFault::BadLine) => End::BadCard,
            RunStop::Own(FeedFault::Stale) => End::Released,
            RunStop::Own(FeedFault::NoReply) => End::NoReply,
            RunStop::Stream(fault) => End::from(fault),
        }
    }
}

impl From<StreamFault> for End {
    ghost from_gives = { λ fault end. end ≡ end_of_stream fault };

    fn from(fault: StreamFault) -> End {
        match fault {
            StreamFault::ReadFailed => End::ReadFailed,
            StreamFault::WriteFailed => End::WriteFailed,
            StreamFault::Memory => End::Memory,
        }
    }
}

/// Returns the end of a run without a subcommand. `is_written` says whether the text of `fault` was
/// written. A usage error has the same end if its text couldn't be written. Allocates nothing.
pub fn end_of_words(fault: &WordsFault, is_written: bool) -> End
    ensures { result ≡ end_of_words fault.now is_written }
{
    match fault {
        WordsFault::Help(_) | WordsFault::Version(_) => {
            if is_written {
                End::Helped
            } else {
                End::WriteFailed
            }
        }
        WordsFault::Usage(_) => End::Usage,
        WordsFault::NotText => End::NotText,
        WordsFault::BadName => End::BadName,
        WordsFault::Memory => End::Memory,
    }
}

/// The words about the end of a run on standard error.
#[derive(Clone, Copy, Debug, PartialEq, Eq)]
pub enum ErrorLine {
    /// A refusal with its number.
    Refused { number: u16 },
    /// A refusal with its number, and the row of the batch file.
    RefusedRow { number: u16, row: u32 },
    /// The number of the first malformed line of a script.
    BadLine { line: u64 },
    /// An argument isn't UTF-8.
    NotText,
    /// The value for a batch, a machine or a product isn't a name.
    BadName,
    /// The device with the database file failed, or is full.
    Storage,
    /// A read or a write failed, or the port can't be used.
    Device,
    /// An allocation failed.
    Memory,
}

impl fmt::Display for ErrorLine {
    ghost use Rattle.std.specs.Prelude.{Some};
    ghost use Rattle.subcommands.specs.Ends.{line_text};

    ghost output = { λ error_line. Some (line_text error_line) };

    fn fmt<W: fmt::Write>(&self, f: &mut fmt::Formatter<W>) -> fmt::Result {
        match self {
            ErrorLine::Refused { number } => write!(f, "refused {number}"),
            ErrorLine::RefusedRow { number, row } => write!(f, "refused {number} row {row}"),
            ErrorLine::BadLine { line } => write!(f, "bad line {line}"),
            ErrorLine::NotText => f.write_str("error: an argument isn't UTF-8"),
            ErrorLine::BadName => f.write_str("bad name"),
            ErrorLine::Storage => f.write_str("storage"),
            ErrorLine::Device => f.write_str("device"),
            ErrorLine::Memory => f.write_str("memory"),
        }
    }
}

impl Error for ErrorLine {}

/// The exit status of the program, and its words for standard error.
#[derive(Clone, Copy, Debug, PartialEq, Eq)]
pub struct Exit {
    /// 0: done; 1: refused; 2: wrong arguments; 3: storage, device or memory.
    pub status: u8,
    /// The words, or `None` at a successful end or if `clap`'s text was printed.
    pub words: Option<ErrorLine>,
}

/// Returns the exit status and the words of `end` (this project's profile). Allocates nothing.
pub fn exit_of(end: End) -> Exit
    ensures { result ≡ exit_of end }
{
    let (status, words) = match end {
        End::Done | End::Helped => (0, None),
        End::Usage => (2, None),
        End::NotText => (2, Some(ErrorLine::NotText)),
        End::BadName => (2, Some(ErrorLine::BadName)),
        End::Refused(fault) => {
            let number = u16::from(fault.kind.code());
            let row = fault.row;
            (1, Some(ErrorLine::RefusedRow { number, row }))
        }
        End::TooLarge => (1, Some(ErrorLine::Refused { number: 413 })),
        End::BadLine(line) => (1, Some(ErrorLine::BadLine { line })),
        End::NotOurs => (1, Some(ErrorLine::Refused { number: NOT_OURS })),
        End::Damaged => (1, Some(ErrorLine::Refused { number: DAMAGED })),
        End::NotReported(why) => {
            let number = u16::from(why.code());
            (1, Some(ErrorLine::Refused { number }))
        }
        End::BadCard => (1, Some(ErrorLine::Refused { number: 400 })),
        End::Released => {
            let number = u16::from(NUMBER_RELEASED);
            (1, Some(ErrorLine::Refused { number }))
        }
        End::Storage => (3, Some(ErrorLine::Storage)),
        End::NoReply | End::PortFailed | End::ReadFailed | End::WriteFailed => {
            (3, Some(ErrorLine::Device))
        }
        End::Memory => (3, Some(ErrorLine::Memory)),
    };
    Exit { status, words }
}

/// Returns the exit status of `end`. Allocates nothing.
pub fn status_of(end: End) -> u8
    ensures { result ≡ (exit_of end).status }
{
    exit_of(end).status
}
