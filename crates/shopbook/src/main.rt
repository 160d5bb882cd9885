//! The program `shopbook`, which prints the contents of a server's database file for auditors and
//! the office. It connects its arguments, the file, streams and its exit status with functions of
//! libraries.
#![tactic(auto)]

use arguments::WordsFault;
use book_answers::print_from_file;
use book_arguments::{Ask, BookWords, read_book_words};
use event_lines::{EventLog, Level};
use examination::Damage;
use over_tables::FileFault;
use sqlite_disk::Unknown;
use std::io::IsTerminal;
use std::process::ExitCode;
use std::{env, fs, io};
use store_files::has_suspect_wal;
use subcommands::{End, end_of_words, exit_of, explain, note_refusal, note_suspect_wal, status_of};

/// The size in bytes of a database file whose audit takes about two seconds.
const LONG: u64 = 20_000_000;

fn main(rt: HostRuntime) -> ExitCode {
    let end = match asked(&rt) {
        Ok(words) => obey(&rt, &words),
        Err(fault) => {
            let written = explain(&fault, &mut io::writer(&rt), &mut rt.stderr());
            end_of_words(&fault, written.is_ok())
        }
    };
    if let Some(words) = exit_of(end).words {
        let _ = eprintln!(rt; "{words}");
    }
    ExitCode::from(status_of(end))
}

// Parses the arguments of the process.
fn asked(rt: &HostRuntime) -> Result<BookWords, WordsFault> {
    let words = env::args(rt)?.collect::<Vec<String>>(rt.alloc())?;
    read_book_words(rt.alloc(), words.as_slice())
}

// Reads the database file, and prints the output of the subcommand.
fn obey(rt: &HostRuntime, words: &BookWords) -> End {
    note_wait(rt, words.db.as_str());
    note_suspect(rt, words);
    match print_from_file(rt, words, Unknown, &mut io::writer(rt)) {
        Ok(printed) => {
            if let Some(rule) = printed.failing {
                let cause = Damage::Broken { rule };
                note(rt, words, &FileFault::Damaged { cause });
            }
            printed.end
        }
        Err(fault) => {
            note(rt, words, &fault);
            End::from(fault)
        }
    }
}

// Writes the event line of a WAL that looks damaged, for the subcommand `check`. Another program
// wrote such a WAL, and no subcommand refuses it. SQLite drops everything after the damage when it
// opens the file, so the WAL is examined first.
fn note_suspect(rt: &HostRuntime, words: &BookWords) {
    let path = words.db.as_str();
    if matches!(&words.ask, Ask::Check) && has_suspect_wal(rt, path) {
        let mut events = EventLog::new(Level::Usual, rt.stderr());
        note_suspect_wal(rt.alloc(), path.as_bytes(), &mut events);
    }
}

// Tells a person at a terminal that the audit of a large file takes some time.
fn note_wait(rt: &HostRuntime, path: &str) {
    let is_long = match fs::metadata(rt, path) {
        Ok(found) => found.len() >= LONG,
        Err(_) => false,
    };
    if is_long && rt.stderr().is_terminal() {
        let _ = eprintln!(rt; "auditing {path}");
    }
}

// Writes the event line of a file that is refused or damaged.
fn note(rt: &HostRuntime, words: &BookWords, fault: &FileFault) {
    let mut events = EventLog::new(Level::Usual, rt.stderr());
    note_refusal(rt.alloc(), fault, words.db.as_bytes(), &mut events);
}
