//! Tests of a server in memory: the lines on its standard output, and its event lines.
use crate::exchanges::{inputs, stocked};
use crate::failing_writers::Limited;
use event_lines::{EventLog, Level};
use faulty_store::{Fault, FaultyStore, Plan};
use job_facts::{ServerStore, StoreFault};
use list_store::ListStore;
use server::{Connections, MemoryConnections, NextFault, Served};
use server_run::{Opened, ServeStop, refusal_in, serve_and_report};
use std::alloc::{AllocError, AllocGlobal, Global};
use std::io::{self, ErrorKind, Write};
use std::process::Abort;
use std::test::Fail;
use wire::Pieces;

const PRODUCT: &[u8] =
    b"POST /c/office/1 HTTP/1.1\r\nHost: localhost\r\nContent-Length: 63\r\n\r\n{\"do\":\"product\",\"product\":\"P1\",\"max\":255,\"low\":0,\"check\":false}";

// A different request under the request number of `PRODUCT`.
const REUSED: &[u8] = b"POST /c/office/1 HTTP/1.1\r\nContent-Length: 14\r\n\r\n{\"do\":\"reset\"}";

const RESET: &[u8] = b"POST /c/m1/1 HTTP/1.1\r\nContent-Length: 14\r\n\r\n{\"do\":\"reset\"}";

// A request number with a leading zero.
const MALFORMED: &[u8] = b"POST /c/office/01 HTTP/1.1\r\n\r\n";

// A batch file with an empty line, whose second data row has the identifier of the first.
const TWICE: &[u8] = b"POST /c/office/2/batch/B1/P1 HTTP/1.1\r\nContent-Length: 95\r\n\r\n\
record,aid,rank,enc,tol,dgi\n\n\
R1,F00000000101,1,0,0,0101027000\n\
R1,F00000000101,2,0,0,0101027000\n";

// The lowest invalid `max`.
const MAX_256: &[u8] =
    b"POST /c/office/3 HTTP/1.1\r\nContent-Length: 63\r\n\r\n{\"do\":\"product\",\"product\":\"P1\",\"max\":256,\"low\":0,\"check\":false}";

const NO_BATCH: &[u8] = b"GET /batch/B9 HTTP/1.1\r\nHost: localhost\r\n\r\n";

// A request line without its end.
const BROKEN: &[u8] = b"GET /batch/B9 HTTP/1.1";

// A product, its repeat, its request number for a different request, an invalid number, a batch
// that doesn't exist, and an incomplete request line.
const ALL_KINDS: &[&[u8]] = &[PRODUCT, PRODUCT, REUSED, MALFORMED, NO_BATCH, BROKEN];

// A product, a batch file with an identifier twice, and a product with an invalid value.
const REFUSED: &[&[u8]] = &[PRODUCT, TWICE, MAX_256];

const NO_TEXTS: &[&[u8]] = &[];

const NEW: Opened<'static> = Opened {
    path: b"shop.db",
    is_new: true,
    has_log: false,
    older: None,
};

const FOUND: Opened<'static> = Opened {
    path: b"my \"shop\".db",
    is_new: false,
    has_log: true,
    older: None,
};

const LISTENING: &[u8] = b"listening 127.0.0.1:8807\n";

const ONE_SERVED: &[u8] = b"listening 127.0.0.1:8807\nserved 1\n";

// The result of a server, with its lines and event lines.
#[derive(Drop)]
struct Ended {
    outcome: Result<(), ServeStop>,
    lines: Vec<u8>,
    events: Vec<u8>,
}

impl Ended {
    fn is(&self, outcome: Result<(), ServeStop>, lines: &[u8], events: &[u8]) -> bool {
        self.outcome == outcome
            && self.lines.as_slice() == lines
            && self.events.as_slice() == events
    }
}

// A server that a test runs.
#[derive(Clone, Copy)]
enum Run<'a> {
    // Serves `turns` of the connections `texts` over empty lists.
    Lists {
        texts: &'a [&'a [u8]],
        turns: u32,
        level: Level,
    },
    // Serves no connection over the store of `stocked`.
    Stocked,
    // Serves the connections `texts` over a store whose device has the fault `fault` after `at`
    // steps.
    Planned {
        fault: Fault,
        at: u64,
        opened: Opened<'a>,
        texts: &'a [&'a [u8]],
    },
    // Serves the connections `texts`. The first `room` bytes of each response are accepted.
    Unsent {
        texts: &'a [&'a [u8]],
        room: usize,
    },
    // Serves a `product` request. The writer of event lines has room for `room` bytes.
    CutLines {
        room: usize,
    },
    // Serves a `product` request with a writer that can be flushed `flushes` times.
    Flushed {
        flushes: u32,
    },
}

// A server: its database file, the bytes of its connections, the number of connections that it
// serves, and the level of its event lines.
#[derive(Clone, Copy)]
struct Serving<'a> {
    opened: Opened<'a>,
    texts: &'a [&'a [u8]],
    turns: u32,
    level: Level,
}

// The server of `Run::Stocked`.
const STOCKED: Serving<'static> = Serving {
    opened: FOUND,
    texts: NO_TEXTS,
    turns: 0,
    level: Level::Usual,
};

// Runs a server. The inner result is its end, unless an allocation fails.
fn serve(alloc: Global, run: Run<'_>) -> Result<Result<Ended, AllocError>, Fail> {
    Ok(match run {
        Run::Lists {
            texts,
            turns,
            level,
        } => {
            let serving = Serving {
                opened: NEW,
                texts,
                turns,
                level,
            };
            served_over(alloc, ListStore::new(alloc), &serving)
        }
        Run::Stocked => served_over(alloc, stocked(alloc)?, &STOCKED),
        Run::Planned {
            fault,
            at,
            opened,
            texts,
        } => planned(alloc, fault, at, opened, texts),
        Run::Unsent { texts, room } => cut_at(alloc, texts, room),
        Run::CutLines { room } => cut_lines(alloc, room),
        Run::Flushed { flushes } => flushed_lines(alloc, flushes),
    })
}

// Runs a server and checks its result. If the result isn't the expected one, an allocation may have
// failed, so the server runs once more.
fn check<R: AllocGlobal + Abort>(
    rt: &R,
    run: Run<'_>,
    outcome: Result<(), ServeStop>,
    lines: &[u8],
    events: &[u8],
) -> Result<(), Fail> {
    let ended = match serve(rt.alloc(), run)? {
        Ok(ended) if ended.is(outcome, lines, events) => ended,
        _ => serve(rt.alloc(), run)??,
    };
    assert_eq!(rt; ended.outcome, outcome);
    assert_eq!(rt; ended.lines.as_slice(), lines);
    assert_eq!(rt; ended.events.as_slice(), events);
    Ok(())
}

// Serves the connections of `serving` over `store`.
fn served_over<S: ServerStore + Drop>(
    alloc: Global,
    store: S,
    serving: &Serving<'_>,
) -> Result<Ended, AllocError> {
    let mut connections = MemoryConnections::new(alloc, inputs(alloc, serving.texts)?, 512);
    let mut lines = Vec::new(alloc);
    let mut events = EventLog::new(serving.level, Vec::new(alloc));
    let outcome = serve_and_report(
        alloc,
        store,
        &mut connections,
        &mut lines,
        &mut events,
        &serving.opened,
        8807,
        serving.turns,
    );
    Ok(Ended {
        outcome,
        lines,
        events: events.writer,
    })
}

// Serves these connections, at most six, over a store whose device has a planned fault.
fn planned(
    alloc: Global,
    fault: Fault,
    at: u64,
    opened: Opened<'_>,
    texts: &[&[u8]],
) -> Result<Ended, AllocError> {
    let store = FaultyStore::new(alloc, Some(Plan { turns: at, fault }));
    let serving = Serving {
        opened,
        texts,
        turns: texts.len().min(6) as u32,
        level: Level::Usual,
    };
    served_over(alloc, store, &serving)
}

// At level `Usual` an accepted request has no line. At level `Off` there are no lines.
#[test]
fn the_level_selects_event_lines(rt: HostRuntime) -> Result<(), Fail> {
    let all = b"made db=\"shop.db\"
answered status=200 request=\"POST /c/office/1 HTTP/1.1\"
answered status=200 request=\"POST /c/office/1 HTTP/1.1\"
answered status=409 code=72 name=number-reused request=\"POST /c/office/1 HTTP/1.1\"
answered status=400 code=400 name=malformed cause=number request=\"POST /c/office/01 HTTP/1.1\"
answered status=409 code=56 name=batch-unknown request=\"GET /batch/B9 HTTP/1.1\"
broken bytes=22
closed connections=6
";
    let usual = b"made db=\"shop.db\"
answered status=409 code=72 name=number-reused request=\"POST /c/office/1 HTTP/1.1\"
answered status=400 code=400 name=malformed cause=number request=\"POST /c/office/01 HTTP/1.1\"
answered status=409 code=56 name=batch-unknown request=\"GET /batch/B9 HTTP/1.1\"
broken bytes=22
closed connections=6
";
    let lines = b"listening 127.0.0.1:8807\nserved 6\n";
    for (level, events) in [
        (Level::All, all.as_slice()),
        (Level::Usual, usual.as_slice()),
        (Level::Off, b"".as_slice()),
    ] {
        let run = Run::Lists {
            texts: ALL_KINDS,
            turns: 6,
            level,
        };
        check(&rt, run, Ok(()), lines, events)?;
    }
    Ok(())
}

// The line of a refused import is followed by the row, the line and the field of its fault, and the
// line of a 400 has its cause.
#[test]
fn refusals_have_a_cause(rt: HostRuntime) -> Result<(), Fail> {
    let events = b"made db=\"shop.db\"
answered status=409 code=22 name=identifier-twice request=\"POST /c/office/2/batch/B1/P1 HTTP/1.1\"
fault code=22 name=identifier-twice row=3 other=2 line=4 record=\"R1\" field=6
answered status=400 code=400 name=malformed cause=value member=max request=\"POST /c/office/3 HTTP/1.1\"
closed connections=3
";
    let lines = b"listening 127.0.0.1:8807\nserved 3\n";
    let run = Run::Lists {
        texts: REFUSED,
        turns: 3,
        level: Level::Usual,
    };
    check(&rt, run, Ok(()), lines, events)
}

// The bodies of refusals have four forms.
#[test]
fn the_code_and_name_of_a_refusal_are_found(rt: HostRuntime) -> Result<(), Fail> {
    let bodies: [(&[u8], Option<(&str, &str)>); 5] = [
        (
            b"{\"code\":56,\"refused\":\"batch-unknown\"}",
            Some(("56", "batch-unknown")),
        ),
        (
            b"{\"code\":36,\"refused\":\"grouping\",\"row\":2}",
            Some(("36", "grouping")),
        ),
        (
            b"{\"code\":61,\"refused\":\"machine-busy\",\"session\":1}",
            Some(("61", "machine-busy")),
        ),
        (
            b"{\"code\":73,\"mark\":69999999,\"refused\":\"number-released\"}",
            Some(("73", "number-released")),
        ),
        (b"{\"product\":\"P1\",\"result\":\"created\"}", None),
    ];
    for (body, words) in bodies {
        assert_eq!(rt; refusal_in(body), words);
    }
    Ok(())
}

// The first event line of an existing store has its counts, except those that can't be read.
#[test]
fn the_contents_of_an_existing_store_are_counted(rt: HostRuntime) -> Result<(), Fail> {
    let lines = b"listening 127.0.0.1:8807\nserved 0\n";
    let counted = b"opened db=\"my \\x22shop\\x22.db\" log=taken batches=1 sessions=0 replies=3
closed connections=0
";
    check(&rt, Run::Stocked, Ok(()), lines, counted)?;
    let unread = b"opened db=\"my \\x22shop\\x22.db\" log=taken batches=0 replies=0
closed connections=0
";
    let run = Run::Planned {
        fault: Fault::Full,
        at: 1,
        opened: FOUND,
        texts: NO_TEXTS,
    };
    check(&rt, run, Ok(()), lines, unread)
}

// Each 503 has the fault of the store. `recovered` is written before the line of the first
// connection for which the store works again.
#[test]
fn a_full_store_recovers(rt: HostRuntime) -> Result<(), Fail> {
    let events = b"made db=\"shop.db\"
answered status=503 code=503 name=storage fault=full request=\"POST /c/office/1 HTTP/1.1\"
broken bytes=22
recovered
answered status=409 code=56 name=batch-unknown request=\"GET /batch/B9 HTTP/1.1\"
closed connections=4
";
    let lines = b"listening 127.0.0.1:8807\nserved 4\n";
    let texts: [&[u8]; 4] = [PRODUCT, BROKEN, NO_BATCH, PRODUCT];
    let run = Run::Planned {
        fault: Fault::Full,
        at: 0,
        opened: NEW,
        texts: &texts,
    };
    check(&rt, run, Ok(()), lines, events)
}

// After a failure of the device the store is shut and can't be closed, so the last line isn't
// written.
#[test]
fn a_failed_store_is_not_closed(rt: HostRuntime) -> Result<(), Fail> {
    let events = b"made db=\"shop.db\"
answered status=503 code=503 name=storage fault=device request=\"POST /c/m1/1 HTTP/1.1\"
answered status=503 code=503 name=storage fault=device request=\"POST /c/m1/1 HTTP/1.1\"
unclosed fault=device
";
    let texts: [&[u8]; 2] = [RESET, RESET];
    let stop = Err(ServeStop::Store {
        fault: StoreFault::Device,
    });
    let run = Run::Planned {
        fault: Fault::Failed,
        at: 0,
        opened: NEW,
        texts: &texts,
    };
    check(&rt, run, stop, LISTENING, events)?;
    let full = Err(ServeStop::Store {
        fault: StoreFault::Full,
    });
    let run = Run::Planned {
        fault: Fault::Full,
        at: 0,
        opened: NEW,
        texts: NO_TEXTS,
    };
    let events = b"made db=\"shop.db\"\nunclosed fault=full\n";
    check(&rt, run, full, LISTENING, events)
}

#[test]
fn the_store_is_closed_if_no_connection_is_left(rt: HostRuntime) -> Result<(), Fail> {
    let events = b"made db=\"shop.db\"
answered status=409 code=56 name=batch-unknown request=\"GET /batch/B9 HTTP/1.1\"
closed connections=1
";
    let texts: [&[u8]; 1] = [NO_BATCH];
    let run = Run::Lists {
        texts: &texts,
        turns: 2,
        level: Level::Usual,
    };
    let stop = Err(ServeStop::Next);
    check(&rt, run, stop, LISTENING, events)
}

// Connections with these messages. The first `room` bytes of each response are accepted.
#[derive(Drop)]
struct Cut<'a> {
    texts: &'a [&'a [u8]],
    taken: usize,
    room: usize,
}

impl<'a> Connections for Cut<'a> {
    ghost use Rattle.std.specs.Prelude.{None, ⊤};

    type In = Pieces<'a>;

    type Out = Limited;

    ghost queue = { λ _. None };

    ghost awaits = { λ _. ⊤ };

    ghost refuses = { λ _ _. ⊤ };

    fn next(&mut self) -> Result<(Pieces<'a>, Limited), NextFault> {
        let Some(text) = self.texts.get(self.taken) else {
            return Err(NextFault::Device);
        };
        self.taken = self.taken.saturating_add(1);
        Ok((Pieces::new(text, 7), Limited::new(self.room, 5)))
    }

    fn back(&mut self, _incoming: Pieces<'a>, _writer: Limited, _served: Served) {
        // A connection isn't kept after it is served.
    }
}

// Serves these messages over lists. The first `room` bytes of each response are accepted.
fn serve_cut<W: Write, E: Write + Drop>(
    alloc: Global,
    texts: &[&[u8]],
    room: usize,
    writer: &mut W,
    events: &mut EventLog<E>,
) -> Result<(), ServeStop> {
    let mut connections = Cut {
        texts,
        taken: 0,
        room,
    };
    let store = ListStore::new(alloc);
    let turns = texts.len().min(6) as u32;
    serve_and_report(
        alloc,
        store,
        &mut connections,
        writer,
        events,
        &NEW,
        8807,
        turns,
    )
}

// Serves these messages, and returns the lines and event lines of the server, all of which can be
// written.
fn cut_at(alloc: Global, texts: &[&[u8]], room: usize) -> Result<Ended, AllocError> {
    let mut lines = Vec::new(alloc);
    let mut events = EventLog::new(Level::Usual, Vec::new(alloc));
    let outcome = serve_cut(alloc, texts, room, &mut lines, &mut events);
    Ok(Ended {
        outcome,
        lines,
        events: events.writer,
    })
}

// If a response can't be written, its line has the status, no matter how much was written.
#[test]
fn a_response_that_is_not_accepted_is_unsent(rt: HostRuntime) -> Result<(), Fail> {
    let events = b"made db=\"shop.db\"
unsent status=200 request=\"POST /c/office/1 HTTP/1.1\"
unsent status=409 request=\"GET /batch/B9 HTTP/1.1\"
closed connections=2
";
    let lines = b"listening 127.0.0.1:8807\nserved 2\n";
    let texts: [&[u8]; 2] = [PRODUCT, NO_BATCH];
    for room in [0, 1, 11, 12, 100] {
        let run = Run::Unsent {
            texts: &texts,
            room,
        };
        check(&rt, run, Ok(()), lines, events)?;
    }
    Ok(())
}

// Serves a `product` request. The writer of event lines has room for `room` bytes.
fn cut_lines(alloc: Global, room: usize) -> Result<Ended, AllocError> {
    let mut writer = Limited::new(512, 3);
    let mut events = EventLog::new(Level::All, Limited::new(room, 3));
    let outcome = serve_cut(alloc, &[PRODUCT], 512, &mut writer, &mut events);
    Ok(Ended {
        outcome,
        lines: writer.taken().to_vec(alloc)?,
        events: events.writer.taken().to_vec(alloc)?,
    })
}

const A_PRODUCT: &[u8] = b"made db=\"shop.db\"
answered status=200 request=\"POST /c/office/1 HTTP/1.1\"
closed connections=1
";

// A writer that can be flushed `flushes` times.
#[derive(Drop)]
struct Flushing {
    inner: Limited,
    flushes: u32,
}

impl Write for Flushing {
    fn write(&mut self, buf: &[u8]) -> io::Result<usize> {
        self.inner.write(buf)
    }

    fn flush(&mut self) -> io::Result<()> {
        match self.flushes.checked_sub(1) {
            Some(left) => {
                self.flushes = left;
                Ok(())
            }
            None => Err(io::Error::from(ErrorKind::BrokenPipe)),
        }
    }
}

// Serves a `product` request with a writer that can be flushed `flushes` times.
fn flushed_lines(alloc: Global, flushes: u32) -> Result<Ended, AllocError> {
    let inner = Limited::new(512, 512);
    let mut writer = Flushing { inner, flushes };
    let mut events = EventLog::new(Level::All, Vec::new(alloc));
    let outcome = serve_cut(alloc, &[PRODUCT], 512, &mut writer, &mut events);
    Ok(Ended {
        outcome,
        lines: writer.inner.taken().to_vec(alloc)?,
        events: events.writer,
    })
}

// Each of the two lines is flushed after it is written. A failed flush is a failed write. The store
// is closed even if the first line fails.
#[test]
fn a_failed_flush_ends_the_server(rt: HostRuntime) -> Result<(), Fail> {
    let stop = Err(ServeStop::Write);
    let events = b"made db=\"shop.db\"\nclosed connections=0\n";
    for (flushes, outcome, lines, events) in [
        (0, stop, LISTENING, events.as_slice()),
        (1, stop, ONE_SERVED, A_PRODUCT),
        (2, Ok(()), ONE_SERVED, A_PRODUCT),
    ] {
        let run = Run::Flushed { flushes };
        check(&rt, run, outcome, lines, events)?;
    }
    Ok(())
}

#[test]
fn failed_event_lines_do_not_end_the_server(rt: HostRuntime) -> Result<(), Fail> {
    for room in [0, 10, 60, 512] {
        let events = A_PRODUCT.get(..room).unwrap_or(A_PRODUCT);
        let run = Run::CutLines { room };
        check(&rt, run, Ok(()), ONE_SERVED, events)?;
    }
    Ok(())
}
