//! Checks the output of feeds.
use feeding::{Exchange, FeedFault, MachineStart, feed_engine};
use list_store::ListStore;
use server::{MemoryReader, serve_one};
use std::alloc::{AllocError, Global};
use store_data::Name;
use text_io::RunStop;
use worked_files::{Case, CaseFault, Line, check_bytes, post};

/// The requests before a feed for `set-up`.
const SET_UP: [&str; 3] = [
    "office/1 {\"do\":\"product\",\"product\":\"P1\",\"max\":255,\"low\":0,\"check\":false}",
    "office/2 {\"do\":\"lot\",\"lot\":\"L1\",\"product\":\"P1\",\"first\":1000,\"count\":9}",
    "office/3/batch/B1/P1 record,aid,rank,enc,tol,dgi\\nR1,F00000000101,1,0,0,0101027000\\n\
     R2,F00000000101,1,0,0,0101027000\\nR3,F00000000101,1,0,1,8000020102\\n",
];

/// The fate of a request on the network.
#[derive(Clone, Copy, PartialEq, Eq)]
enum Fate {
    /// The request doesn't arrive.
    Gone,
    /// The request arrives, and its response is lost.
    Lost,
    /// The request arrives twice, and the second response comes back.
    Twice,
    /// The response comes back without its last byte.
    Short,
}

/// A server in memory: the number of requests so far, the fates of some of them, counted from 1,
/// and the messages that arrive before some of them.
#[derive(Drop)]
struct Server {
    alloc: Global,
    store: ListStore,
    asked: u64,
    fates: Vec<(u64, Fate)>,
    before: Vec<(u64, Vec<u8>)>,
}

impl Server {
    fn new(alloc: Global) -> Server {
        Server {
            alloc,
            store: ListStore::new(alloc),
            asked: 0,
            fates: Vec::new(alloc),
            before: Vec::new(alloc),
        }
    }

    fn serve(&mut self, message: &[u8]) -> Result<Vec<u8>, AllocError> {
        served(self.alloc, &mut self.store, message)
    }

    // Returns the fate of the present request.
    fn fate(&self) -> Option<Fate> {
        for (ask, fate) in &self.fates {
            if *ask == self.asked {
                return Some(*fate);
            }
        }
        None
    }

    // Serves the messages that arrive before the present request.
    fn serve_before(&mut self) -> Result<(), AllocError> {
        for (ask, message) in &self.before {
            if *ask == self.asked {
                served(self.alloc, &mut self.store, message.as_slice())?;
            }
        }
        Ok(())
    }
}

// Returns the response to a message.
fn served(alloc: Global, store: &mut ListStore, message: &[u8]) -> Result<Vec<u8>, AllocError> {
    let mut reply = Vec::new(alloc);
    let mut incoming = MemoryReader::new(message.to_vec(alloc)?, usize::MAX);
    let _ = serve_one(alloc, store, &mut incoming, &mut reply);
    Ok(reply)
}

impl Exchange for Server {
    ghost use Rattle.std.specs.Prelude.{None};

    ghost log = { λ _. None };

    fn exchange(&mut self, message: &[u8]) -> Result<Option<Vec<u8>>, AllocError> {
        self.asked = self.asked.saturating_add(1);
        self.serve_before()?;
        let fate = self.fate();
        if fate == Some(Fate::Gone) {
            return Ok(None);
        }
        let mut reply = self.serve(message)?;
        match fate {
            Some(Fate::Lost) => return Ok(None),
            Some(Fate::Twice) => reply = self.serve(message)?,
            Some(Fate::Short) => {
                let _ = reply.pop();
            }
            _ => {}
        }
        Ok(Some(reply))
    }
}

/// Checks that a feed of machine `m1` with batch `B1` has its expected output.
pub fn check_feed(alloc: Global, case: &Case) -> Result<(), CaseFault> {
    let mut server = Server::new(alloc);
    let mut boot = 1;
    let mut cards = String::new(alloc);
    let mut wanted = String::new(alloc);
    for line in &case.lines {
        let text = line.text.as_str();
        if line.is_answer {
            wanted.push_str(text)?;
            wanted.push('\n')?;
        } else if let Some(number) = text.strip_prefix("boot ") {
            boot = number_in(line, number)?;
        } else if !comes_before(alloc, &mut server, line)? {
            cards.push_str(text)?;
            cards.push('\n')?;
        }
    }
    let came = fed(alloc, &mut server, boot, cards.as_bytes())?;
    check_bytes(
        alloc,
        case.number,
        "feed",
        wanted.as_bytes(),
        came.as_slice(),
    )
}

// Returns `true` if a line isn't a card but an event before the feed or the fate of a request.
fn comes_before(alloc: Global, server: &mut Server, line: &Line) -> Result<bool, CaseFault> {
    let text = line.text.as_str();
    if text == "set-up" {
        for request in SET_UP {
            let message = message_of(alloc, line, request)?;
            server.serve(message.as_slice())?;
        }
        return Ok(true);
    }
    let Some((first, rest)) = text.split_once(' ') else {
        return Ok(false);
    };
    let fate = match first {
        "client" => {
            let message = message_of(alloc, line, rest)?;
            server.serve(message.as_slice())?;
            return Ok(true);
        }
        "before" => {
            put_before(alloc, server, line, rest)?;
            return Ok(true);
        }
        "gone" => Fate::Gone,
        "lost" => Fate::Lost,
        "twice" => Fate::Twice,
        "short" => Fate::Short,
        _ => return Ok(false),
    };
    server.fates.push((number_in(line, rest)?, fate))?;
    Ok(true)
}

// Adds a message before a request: the number of the request, a space, and the message.
fn put_before(
    alloc: Global,
    server: &mut Server,
    line: &Line,
    text: &str,
) -> Result<(), CaseFault> {
    let Some((number, request)) = text.split_once(' ') else {
        return Err(CaseFault::Form { line: line.number });
    };
    let ask = number_in(line, number)?;
    let message = message_of(alloc, line, request)?;
    server.before.push((ask, message))?;
    Ok(())
}

fn number_in(line: &Line, text: &str) -> Result<u64, CaseFault> {
    match text.parse::<u64>() {
        Ok(number) => Ok(number),
        Err(_) => Err(CaseFault::Form { line: line.number }),
    }
}

// Returns a message, which is given as the part of its target after `/c/`, a space, and its body,
// in which `\n` represents LF.
fn message_of(alloc: Global, line: &Line, request: &str) -> Result<Vec<u8>, CaseFault> {
    let Some((tail, body)) = request.split_once(' ') else {
        return Err(CaseFault::Form { line: line.number });
    };
    let target = format!(in alloc; "/c/{tail}")?;
    let body = body.replace(alloc, "\\n", "\n")?;
    Ok(post(alloc, target.as_str(), body.as_bytes())?)
}

// Returns the output of a feed, and then the reason why it ended.
fn fed(
    alloc: Global,
    server: &mut Server,
    boot: u64,
    mut cards: &[u8],
) -> Result<Vec<u8>, CaseFault> {
    let mut printed = Vec::new(alloc);
    let (Some(machine), Some(batch)) = (Name::new(b"m1"), Name::new(b"B1")) else {
        return Ok(printed);
    };
    if boot < 1 || boot > 9_999_999_999 {
        return Ok(printed);
    }
    let start = MachineStart {
        machine,
        boot,
        batch,
    };
    let end = feed_engine(alloc, start, &mut cards, &mut printed, server);
    let last_line = match end {
        Ok(()) => "",
        Err(RunStop::Own(FeedFault::BadLine)) => "refused 400\n",
        Err(RunStop::Own(FeedFault::Stale)) => "refused 73\n",
        Err(RunStop::Own(FeedFault::NoReply)) => "device\n",
        Err(RunStop::Stream(_)) => return Err(CaseFault::Memory),
    };
    printed.extend_from_slice(last_line.as_bytes())?;
    Ok(printed)
}
