//! The program `worked`: runs files of worked examples through every public function
//! (docs/WORKED.md).
#![tactic(auto)]

mod drills;
mod feeds;
mod stores;

use drills::{check_script, check_scripted};
use feeds::check_feed;
use std::alloc::Global;
use std::process::ExitCode;
use std::{env, fs, io};
use stores::{Lists, ListsBehindDevice, Tables};
use worked_exchanges::{check_exchanges, check_machine, check_messages};
use worked_files::{Case, CaseFault, Repeats, Table, cases, check_plan, check_table};

const USAGE: &str =
    "usage: worked FILE.. (.plan, .exchange, .message, .drill, .feed, .grouping, .record, .word)";

/// The kind of cases in a file.
#[derive(Clone, Copy)]
enum Kind {
    Plan,
    Exchange,
    Message,
    Drill,
    Feed,
    Table(Table),
}

fn main(rt: HostRuntime) -> ExitCode {
    match run(&rt) {
        Ok(true) => ExitCode::SUCCESS,
        Ok(false) => ExitCode::from(1),
        Err(_) => ExitCode::from(3),
    }
}

// Runs the files that the arguments name. Returns `true` if every case passes.
fn run(rt: &HostRuntime) -> io::Result<bool> {
    let words = env::args(rt)?.collect::<Vec<String>>(rt.alloc())?;
    let mut is_right = true;
    for name in words.iter().skip(1) {
        is_right = run_file(rt, name.as_str())? && is_right;
    }
    Ok(is_right)
}

fn run_file(rt: &HostRuntime, name: &str) -> io::Result<bool> {
    let Some(kind) = kind_of(name) else {
        println!(rt; "{USAGE}")?;
        return Ok(false);
    };
    let text = fs::read_to_string(rt, name)?;
    match cases(rt.alloc(), text.as_str(), repeats_of(kind)) {
        Ok(cases) => run_cases(rt, name, kind, cases),
        Err(fault) => {
            print_fault(rt, name, fault)?;
            Ok(false)
        }
    }
}

// Returns the kind of cases by the ending of the file name.
fn kind_of(name: &str) -> Option<Kind> {
    let (_, end) = name.rsplit_once('.')?;
    match end {
        "plan" => Some(Kind::Plan),
        "exchange" => Some(Kind::Exchange),
        "message" => Some(Kind::Message),
        "drill" => Some(Kind::Drill),
        "feed" => Some(Kind::Feed),
        "grouping" => Some(Kind::Table(Table::Groupings)),
        "record" => Some(Kind::Table(Table::Records)),
        "word" => Some(Kind::Table(Table::Words)),
        _ => None,
    }
}

fn repeats_of(kind: Kind) -> Repeats {
    match kind {
        Kind::Exchange | Kind::Message | Kind::Table(_) => Repeats::WithAnswers,
        Kind::Plan | Kind::Drill | Kind::Feed => Repeats::Alone,
    }
}

// Prints each case that fails, and the number of cases.
fn run_cases(rt: &HostRuntime, name: &str, kind: Kind, cases: Vec<Case>) -> io::Result<bool> {
    let count = cases.len();
    let mut failed = 0usize;
    for case in cases {
        if let Err(fault) = run_case(rt.alloc(), kind, case) {
            failed = failed.saturating_add(1);
            print_fault(rt, name, fault)?;
        }
    }
    if failed > 0 {
        println!(rt; "{name}: {count} cases, {failed} failed")?;
    } else {
        println!(rt; "{name}: {count} cases")?;
    }
    Ok(failed == 0)
}

fn run_case(alloc: Global, kind: Kind, case: Case) -> Result<(), CaseFault> {
    match kind {
        Kind::Plan => match check_plan(alloc, &case)? {
            Some(printed) => {
                check_machine::<Lists>(alloc, &printed)?;
                check_machine::<ListsBehindDevice>(alloc, &printed)?;
                check_machine::<Tables>(alloc, &printed)
            }
            None => Ok(()),
        },
        Kind::Exchange => match check_exchanges::<Lists, ListsBehindDevice, Tables>(alloc, case)? {
            Some(scripted) => check_scripted(alloc, &scripted),
            None => Ok(()),
        },
        Kind::Message => check_messages::<Lists, ListsBehindDevice, Tables>(alloc, &case),
        Kind::Drill => check_script(alloc, &case),
        Kind::Feed => check_feed(alloc, &case),
        Kind::Table(table) => check_table(alloc, table, &case),
    }
}

fn print_fault(rt: &HostRuntime, name: &str, fault: CaseFault) -> io::Result<()> {
    match fault {
        CaseFault::Differs {
            line,
            way,
            store,
            wanted,
            came,
        } => println!(rt; "{name}:{line}: {way}, over {store}\n  wanted {wanted}\n  came   {came}"),
        CaseFault::Form { line } => println!(rt; "{name}:{line}: a line of no form"),
        CaseFault::Memory => println!(rt; "{name}: a case gave up"),
    }
}
