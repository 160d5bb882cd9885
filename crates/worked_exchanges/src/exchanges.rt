//! Checks requests and their responses.
use crate::typed::{check_handled, check_parsed, check_run, written_anew};
use crate::ways::{
    Exchange, ONE_BY_ONE, StoreKind, WHOLE, are_few, check_same, check_wanted, check_way,
    connected, over, served,
};
use server::Replied;
use std::alloc::{AllocError, Global};
use wire::reply_parts;
use worked_files::{Case, CaseFault, Line, Repeats, cases, get, post, wanted_of};

/// The requests of a case, as they are read.
#[derive(Drop)]
struct Asks {
    exchanges: Vec<Exchange>,
    /// The batch file that is being read.
    file: Option<File>,
    /// `true` if the responses depend on how the requests are written.
    is_spelling: bool,
}

/// A script of a drill with the requests of a case.
#[derive(Drop)]
pub struct Scripted {
    /// The line of the file with the title of the case.
    pub line: u64,
    pub script: String,
    /// The status and the body of each response, one line each.
    pub printed: Vec<u8>,
}

/// Runs a case in every way with the stores `K` and `L`, and if it has few requests also with `M`.
/// Every run has its own store, and all must have the same output. Returns the script and the
/// output of a drill if all requests are the office's.
pub fn check_exchanges<K: StoreKind, L: StoreKind, M: StoreKind>(
    alloc: Global,
    case: Case,
) -> Result<Option<Scripted>, CaseFault> {
    let number = case.number;
    let lines = with_set_up(alloc, case)?;
    let asks = asks_of(alloc, lines.as_slice())?;
    let exchanges = asks.exchanges.as_slice();
    let first = served::<K>(alloc, exchanges, WHOLE)?;
    over::<K>(check_wanted(alloc, exchanges, WHOLE.name, first.replies(), false))?;
    check_parsed(alloc, exchanges, first.replies())?;
    over::<K>(check_ways::<K>(alloc, &asks, first.replies()))?;
    over::<L>(check_ways::<L>(alloc, &asks, first.replies()))?;
    if are_few(exchanges) {
        over::<M>(check_ways::<M>(alloc, &asks, first.replies()))?;
    }
    match script_of(alloc, lines.as_slice())? {
        Some(script) => Ok(Some(Scripted {
            line: number,
            script,
            printed: printed(alloc, first.replies())?,
        })),
        None => Ok(None),
    }
}

fn check_ways<K: StoreKind>(
    alloc: Global,
    asks: &Asks,
    first: &[Replied],
) -> Result<(), CaseFault> {
    let exchanges = asks.exchanges.as_slice();
    check_way::<K>(alloc, exchanges, WHOLE, first)?;
    check_way::<K>(alloc, exchanges, ONE_BY_ONE, first)?;
    check_handled::<K>(alloc, exchanges, first)?;
    check_run::<K>(alloc, exchanges, first)?;
    if asks.is_spelling {
        return Ok(());
    }
    check_anew::<K>(alloc, exchanges, first)
}

// Checks that each request, written by `request_text`, gets the response of the first run.
fn check_anew<K: StoreKind>(
    alloc: Global,
    exchanges: &[Exchange],
    first: &[Replied],
) -> Result<(), CaseFault> {
    let mut store = K::fresh(alloc)?;
    let inputs = written_anew(alloc, exchanges)?;
    let anew = connected(alloc, &mut store, inputs, WHOLE.most)?;
    check_same(alloc, exchanges, "request_text", first, anew.replies())
}

// Returns the status and the body of each response.
fn printed(alloc: Global, replies: &[Replied]) -> Result<Vec<u8>, AllocError> {
    let mut text = Vec::new(alloc);
    for replied in replies {
        put_reply(&mut text, replied.written.as_slice())?;
    }
    Ok(text)
}

fn put_reply(text: &mut Vec<u8>, reply: &[u8]) -> Result<(), AllocError> {
    let (status, body) = reply_parts(reply);
    text.extend_from_slice(status)?;
    text.push(b' ')?;
    text.extend_from_slice(body)?;
    if !body.ends_with(b"\n") {
        text.push(b'\n')?;
    }
    Ok(())
}

// A batch file that is being read: the target that it goes to, and its bytes so far.
#[derive(Drop)]
struct File {
    target: String,
    body: Vec<u8>,
}

// The meaning of a line of a case.
#[derive(Drop)]
enum Step {
    /// The responses depend on how the requests are written.
    Spelling,
    /// The following lines are a batch file.
    File(File),
    /// A complete request.
    Ask(Vec<u8>),
}

fn asks_of(alloc: Global, lines: &[Line]) -> Result<Asks, CaseFault> {
    let mut asks = Asks {
        exchanges: Vec::new(alloc),
        file: None,
        is_spelling: false,
    };
    for (i, line) in lines.iter().enumerate() {
        let behind = lines.get(i.saturating_add(1)..).unwrap_or(&[]);
        asks.take(alloc, line, behind)?;
    }
    Ok(asks)
}

impl Asks {
    // Reads a line, with the lines after it.
    fn take(&mut self, alloc: Global, line: &Line, behind: &[Line]) -> Result<(), CaseFault> {
        if line.is_answer || self.file.is_none() && line.text.is_empty() {
            return Ok(());
        }
        let step = match self.file.take() {
            Some(file) => step_in(alloc, file, line.text.as_str())?,
            None => step_of(alloc, line.text.as_str())?,
        };
        match step {
            Some(Step::Spelling) => self.is_spelling = true,
            Some(Step::File(begun)) => self.file = Some(begun),
            Some(Step::Ask(input)) => {
                let exchange = exchange(alloc, line.number, input, behind)?;
                self.exchanges.push(exchange)?;
            }
            None => return Err(CaseFault::Form { line: line.number }),
        }
        Ok(())
    }
}

/// Returns a connection with the given input, and the expected output at the start of `behind`.
pub fn exchange(
    alloc: Global,
    line: u64,
    input: Vec<u8>,
    behind: &[Line],
) -> Result<Exchange, CaseFault> {
    let wanted = wanted_of(alloc, line, answers_in(behind))?;
    Ok(Exchange {
        line,
        input,
        wanted,
    })
}

// Returns the lines of expected output at the start.
fn answers_in(lines: &[Line]) -> &[Line] {
    let count = lines.iter().take_while(|line| line.is_answer).count();
    lines.get(..count).unwrap_or(lines)
}

// A line of a file, or its end.
fn step_in(alloc: Global, file: File, text: &str) -> Result<Option<Step>, AllocError> {
    let File { target, mut body } = file;
    if text == "." {
        let input = post(alloc, target.as_str(), body.as_slice())?;
        return Ok(Some(Step::Ask(input)));
    }
    body.extend_from_slice(text.as_bytes())?;
    body.push(b'\n')?;
    Ok(Some(Step::File(File { target, body })))
}

fn step_of(alloc: Global, text: &str) -> Result<Option<Step>, AllocError> {
    if text == "spelling" {
        return Ok(Some(Step::Spelling));
    }
    let Some((first, rest)) = text.split_once(' ') else {
        return Ok(None);
    };
    match first {
        "get" => Ok(Some(Step::Ask(get(alloc, rest)?))),
        "import" => import_of(alloc, rest),
        client => ask_of(alloc, client, rest),
    }
}

fn import_of(alloc: Global, rest: &str) -> Result<Option<Step>, AllocError> {
    let mut words = rest.split(' ');
    let (Some(client), Some(number)) = (words.next(), words.next()) else {
        return Ok(None);
    };
    let (Some(batch), Some(product), None) = (words.next(), words.next(), words.next()) else {
        return Ok(None);
    };
    let target = format!(in alloc; "/c/{client}/{number}/batch/{batch}/{product}")?;
    let body = Vec::new(alloc);
    Ok(Some(Step::File(File { target, body })))
}

fn ask_of(alloc: Global, client: &str, rest: &str) -> Result<Option<Step>, AllocError> {
    let Some((number, body)) = rest.split_once(' ') else {
        return Ok(None);
    };
    let target = format!(in alloc; "/c/{client}/{number}")?;
    let input = post(alloc, target.as_str(), body.as_bytes())?;
    Ok(Some(Step::Ask(input)))
}

// Returns the script of a drill with the same requests, if all of them are the office's.
fn script_of(alloc: Global, lines: &[Line]) -> Result<Option<String>, AllocError> {
    let mut script = String::new(alloc);
    let mut is_in_file = false;
    for line in lines {
        let text = line.text.as_str();
        if line.is_answer || !is_in_file && (text.is_empty() || text == "spelling") {
            continue;
        }
        if is_in_file {
            is_in_file = text != ".";
            script.push_str(text)?;
        } else if let Some(rest) = text.strip_prefix("import office ") {
            is_in_file = true;
            script.push_str("import ")?;
            script.push_str(rest)?;
        } else if text.starts_with("office ") || text.starts_with("get ") {
            script.push_str(text)?;
        } else {
            return Ok(None);
        }
        script.push('\n')?;
    }
    Ok(Some(script))
}

// The lines for `set-up`.
const SET_UP: &str = r#"== product P1, lot L1 of three blanks from 1000, batch B1
office 1 {"do":"product","product":"P1","max":255,"low":0,"check":false}
  200 {"product":"P1","result":"created"}
office 2 {"do":"lot","lot":"L1","product":"P1","first":1000,"count":3}
  200 {"lot":"L1","result":"created"}
import office 3 B1 P1
record,aid,rank,enc,tol,dgi
R1,F00000000101,1,0,0,0101027000
.
  200 {"batch":"B1","records":1,"result":"created","rows":1}
"#;

// Returns the lines of a case, with the set-up if the case asks for it.
fn with_set_up(alloc: Global, case: Case) -> Result<Vec<Line>, CaseFault> {
    let mut lines = Vec::new(alloc);
    for line in case.lines {
        if line.text.as_str() == "set-up" {
            push_set_up(alloc, &mut lines, line.number)?;
        } else {
            lines.push(line)?;
        }
    }
    Ok(lines)
}

// Adds the lines of the set-up, all with the same line number.
fn push_set_up(alloc: Global, lines: &mut Vec<Line>, number: u64) -> Result<(), CaseFault> {
    for set_up in cases(alloc, SET_UP, Repeats::Alone)? {
        for its in set_up.lines {
            lines.push(Line {
                number,
                is_answer: its.is_answer,
                text: its.text,
            })?;
        }
    }
    Ok(())
}
