//! Tests of the event lines of feeds over replies in memory.
use crate::exchanges::name;
use crate::failing_writers::Limited;
use event_lines::{EventLog, Level};
use feeding::{Exchange, FeedFault, FeedStop, MachineStart, feed_with_events};
use std::alloc::{AllocError, Global};
use std::process::Abort;
use std::test::Fail;
use store_data::Name;
use text_io::{RunStop, StreamFault};

/// A response with a reply to a machine: its status, and the length and the text of its JSON.
macro_rules! reply {
    ($status:literal, $length:literal, $body:literal) => {
        concat!(
            "HTTP/1.1 ",
            $status,
            "\r\nContent-Type: application/json\r\nContent-Length: ",
            $length,
            "\r\nConnection: close\r\n\r\n",
            $body
        )
    };
}

const RELEASED: &str = reply!("200 OK", 37, r#"{"mark":10000000,"result":"released"}"#);

const RESET: &str = reply!("200 OK", 30, r#"{"result":"reset","session":0}"#);

// The reply to an `open` request, with the first command.
const OPENED: &str = reply!(
    "200 OK",
    117,
    r#"{"batch":"B1","blank":1000,"command":"00A4040006F00000000101","index":0,"record":"R1","result":"command","session":1}"#
);

const SPOILED: &str = reply!("200 OK", 32, r#"{"result":"spoiled","session":1}"#);

const BLANK_USED: &str = reply!("409 Conflict", 34, r#"{"code":60,"refused":"blank-used"}"#);

const NUMBER_REUSED: &str = reply!(
    "409 Conflict",
    37,
    r#"{"code":72,"refused":"number-reused"}"#
);

const STORAGE: &str = reply!(
    "503 Service Unavailable",
    32,
    r#"{"code":503,"refused":"storage"}"#
);

// A connection that ends without a response.
const NOTHING: &str = "";

// A body without a head, which could contain card data.
const BODY: &str = "{\"command\":\"80E28000050101027000\"}";

// The maximum number of bytes of event lines in a test.
const ROOM: usize = 512;

// An exchange that returns these replies, one per request, and then none.
#[derive(Drop)]
struct Replies<'a> {
    alloc: Global,
    replies: &'a [&'a str],
    asked: usize,
}

impl Exchange for Replies<'_> {
    ghost use Rattle.std.specs.Prelude.{None};

    ghost log = { λ _. None };

    fn exchange(&mut self, _message: &[u8]) -> Result<Option<Vec<u8>>, AllocError> {
        let came = match self.replies.get(self.asked) {
            Some(reply) => Some(Vec::from_slice(self.alloc, reply.as_bytes())?),
            None => None,
        };
        self.asked = self.asked.saturating_add(1);
        Ok(came)
    }
}

// A feed with the input `list` and these replies, followed by none, and its expected result.
#[derive(Drop)]
struct Case {
    list: &'static [u8],
    replies: &'static [&'static str],
    end: Result<(), FeedStop>,
    printed: &'static [u8],
    events: &'static [u8],
}

// The result of a feed, with its output and its event lines.
#[derive(Drop)]
struct Fed {
    end: Result<(), FeedStop>,
    printed: Limited,
    events: Limited,
}

// Runs a feed with boot number 1. The writer of event lines has room for `room` bytes. Both writers
// accept one byte per call.
fn run(alloc: Global, machine: Name, case: &Case, level: Level, room: usize) -> Fed {
    let (replies, asked) = (case.replies, 0);
    let mut exchange = Replies {
        alloc,
        replies,
        asked,
    };
    let mut list = case.list;
    let mut printed = Limited::new(512, 1);
    let mut log = EventLog::new(level, Limited::new(room, 1));
    let start = MachineStart {
        machine,
        boot: 1,
        batch: machine,
    };
    let end = feed_with_events(
        alloc,
        start,
        &mut list,
        &mut printed,
        &mut exchange,
        &mut log,
    );
    let events = log.writer;
    Fed {
        end,
        printed,
        events,
    }
}

// The event lines of a feed: their level, the number of bytes that their writer accepts, and the
// bytes that it must have at the end.
#[derive(Clone, Copy)]
struct Log<'a> {
    level: Level,
    room: usize,
    bytes: &'a [u8],
}

// Checks the result, the output and the event lines of a feed. If an allocation fails, the feed
// stops or leaves out a line. A second run must then be complete.
fn check_at(rt: &impl Abort, alloc: Global, machine: Name, case: &Case, log: &Log<'_>) {
    let level = log.level;
    let mut feed = run(alloc, machine, case, level, log.room);
    if feed.end != Err(RunStop::Stream(StreamFault::Memory)) {
        assert_eq!(rt; feed.end, case.end, "at {level:?}");
        assert_eq!(rt; feed.printed.taken(), case.printed, "at {level:?}");
    }
    if feed.end != case.end || feed.events.taken() != log.bytes {
        feed = run(alloc, machine, case, level, log.room);
    }
    assert_eq!(rt; feed.end, case.end, "at {level:?}");
    assert_eq!(rt; feed.printed.taken(), case.printed, "at {level:?}");
    assert_eq!(rt; feed.events.taken(), log.bytes, "at {level:?}");
}

// Checks a case at each level. At level `Off` no line is written.
fn check(rt: &impl Abort, alloc: Global, machine: Name, case: &Case) {
    for (level, bytes) in [
        (Level::Usual, case.events),
        (Level::All, case.events),
        (Level::Off, b"".as_slice()),
    ] {
        let log = Log {
            level,
            room: ROOM,
            bytes,
        };
        check_at(rt, alloc, machine, case, &log);
    }
}

fn check_each(rt: &impl Abort, alloc: Global, cases: &[Case]) -> Result<(), Fail> {
    let machine = name("m1")?;
    for case in cases {
        check(rt, alloc, machine, case);
    }
    Ok(())
}

// Each response that isn't a reply to the pending request has an event line, as have each rejected
// card and the malformed line that ends a feed.
#[test]
fn each_kind_of_event_line_is_written(rt: HostRuntime) -> Result<(), Fail> {
    let cases = [
        Case {
            list: b"",
            replies: &[STORAGE, NOTHING, BODY, RELEASED, RESET],
            end: Ok(()),
            printed: b"",
            events: b"again number=10000001 tries=1 reply=\"HTTP/1.1 503 Service Unavailable\"\nagain number=10000001 tries=2\nagain number=10000001 tries=3 bytes=34\n",
        },
        Case {
            list: b"1000 6A80\n",
            replies: &[RELEASED, RESET, OPENED, SPOILED],
            end: Ok(()),
            printed: b"1000 00A4040006F00000000101 6A80\n1000 rejected\n",
            events: b"rejected serial=1000 number=10000004 cause=spoiled\n",
        },
        Case {
            list: b"1000\n1001\nx",
            replies: &[RELEASED, RESET, BLANK_USED, NUMBER_REUSED],
            end: Err(RunStop::Own(FeedFault::BadLine)),
            printed: b"1000 rejected\n1001 rejected\n",
            events: b"rejected serial=1000 number=10000003 code=60 name=blank-used\nrejected serial=1001 number=10000004 code=72 name=number-reused\nboot-used number=10000004\nbad-line line=3 cause=serial\n",
        },
    ];
    check_each(&rt, rt.alloc(), &cases)
}

// If the writer of event lines fails, it has a prefix of them, and the feed continues.
#[test]
fn failed_event_lines_do_not_end_a_feed(rt: HostRuntime) -> Result<(), Fail> {
    let (alloc, machine) = (rt.alloc(), name("m1")?);
    let case = Case {
        list: b"1000\n1001",
        replies: &[STORAGE, RELEASED, RESET, NUMBER_REUSED, BLANK_USED],
        end: Ok(()),
        printed: b"1000 rejected\n1001 rejected\n",
        events: b"again number=10000001 tries=1 reply=\"HTTP/1.1 503 Service Unavailable\"\nrejected serial=1000 number=10000003 code=72 name=number-reused\nboot-used number=10000003\nrejected serial=1001 number=10000004 code=60 name=blank-used\n",
    };
    for (room, _) in case.events.iter().enumerate() {
        let log = Log {
            level: Level::Usual,
            room,
            bytes: &case.events[..room],
        };
        check_at(&rt, alloc, machine, &case, &log);
    }
    check(&rt, alloc, machine, &case);
    Ok(())
}
