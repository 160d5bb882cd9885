//! Tests of drains: which bytes of a connection are read after its response. Closing a connection
//! with unread bytes resets it, and its peer may lose the response.
use crate::crowd::{Crowd, Hall, Peer, Piece, crowd_of};
use crate::peers::SERVED;
use http_messages::ByteSource;
use loopback::Loopback;
use server::Connections;
use std::alloc::AllocGlobal;
use std::io::Write;
use std::process::Abort;
use std::test::Fail;

/// The head of a message whose body has one byte more than 16 MiB.
pub(crate) const TOO_LARGE: &[u8] = b"POST /c/m1/1 HTTP/1.1\r\nContent-Length: 16777217\r\n\r\n";

/// As many bytes as a head may have, without the end of a head.
pub(crate) const ENDLESS: &[u8] = &[b'a'; 8192];

pub(crate) const CHUNKED: &[u8] = b"POST /c/m1/1 HTTP/1.1\r\nTransfer-Encoding: chunked\r\n\r\n";

pub(crate) const RESET: &[u8] =
    b"POST /c/m1/1 HTTP/1.1\r\nContent-Length: 14\r\n\r\n{\"do\":\"reset\"}";

const NO_JSON: &[u8] = b"POST /c/m1/1 HTTP/1.1\r\nContent-Length: 14\r\n\r\n{\"do\":\"reset\".";

// The total size of the largest head and the largest body.
const MOST: usize = 16_777_216 + 8_192;

// Serves `turns` connections: reads a piece of each message, and writes `reply`.
fn serve<'a, 'c>(port: &mut Loopback<'a, Hall<'c>>, reply: &str, turns: u64) -> Result<(), Fail> {
    let mut buf = [0; 8192];
    for _ in 0..turns {
        let (mut message, mut replies) = port.next()?;
        message.bring(&mut buf);
        replies.write(reply.as_bytes())?;
        port.back(message, replies, SERVED);
    }
    Ok(())
}

// Serves the first peer, whose message has `size` bytes, with the response `start`. Then serves the
// second peer, which connects after 4 s. Checks that `read` bytes were read from the first peer
// after its message.
fn check_drained<R: AllocGlobal + Abort>(
    rt: &R,
    peers: &'static [Peer],
    size: usize,
    start: &str,
    read: usize,
) -> Result<(), Fail> {
    let crowd = Crowd::new(rt.alloc(), peers);
    let hall = Hall(&crowd);
    let mut port = Loopback::listen(&hall, 1)?;
    serve(&mut port, start, 1)?;
    assert_eq!(rt; crowd.take_written().as_slice(), start.as_bytes());
    // The peer sees the end of its response before more bytes are read.
    assert_eq!(rt; crowd.first_ended.get(), Some(crowd.now()));
    assert_eq!(rt; crowd.first_read.get(), size);
    serve(&mut port, start, 1)?;
    assert_eq!(rt; crowd.now(), 4000);
    assert_eq!(rt;
        crowd.first_read.get().saturating_sub(size),
        read,
        "{start}"
    );
    Ok(())
}

// Serves `turns` peers, the last turns of the server. Checks when they end, and the number of bytes
// that were read from the first peer.
fn check_end<R: AllocGlobal + Abort>(
    rt: &R,
    peers: &'static [Peer],
    turns: u32,
    millis: u64,
    read: usize,
) -> Result<(), Fail> {
    let crowd = Crowd::new(rt.alloc(), peers);
    let hall = Hall(&crowd);
    let mut port = Loopback::listen(&hall, 1)?;
    port.end_after(turns);
    serve(&mut port, "HTTP/1.1 400 ", u64::from(turns))?;
    assert_eq!(rt; crowd.now(), millis);
    assert_eq!(rt; crowd.first_read.get(), read);
    Ok(())
}

// A peer that sends the given pieces, and a second peer that connects at the given time.
macro_rules! before_another {
    ($pieces:expr, $at:expr) => {
        crowd_of![
            (1, 0, $pieces),
            (1, $at, &[(0, Piece::Text(b"GET / HTTP/1.1\r\n\r\n"))]),
        ]
    };
}

// A peer that sends a message, and `count` bytes one second later. A second peer connects after 4
// s.
macro_rules! followed {
    ($message:expr, $count:expr) => {
        before_another!(&[(0, Piece::Text($message)), (1000, Piece::Many($count))], 4000)
    };
}

#[test]
fn what_follows_an_early_reply_is_dropped(rt: HostRuntime) -> Result<(), Fail> {
    const ALL: &[(&[Peer], usize, &str, usize)] = &[
        (followed!(TOO_LARGE, 1), TOO_LARGE.len(), "HTTP/1.1 413 ", 1),
        (
            followed!(TOO_LARGE, MOST),
            TOO_LARGE.len(),
            "HTTP/1.1 413 ",
            MOST,
        ),
        (
            followed!(TOO_LARGE, MOST + 9000),
            TOO_LARGE.len(),
            "HTTP/1.1 413 ",
            MOST,
        ),
        (followed!(ENDLESS, 100_000), 8192, "HTTP/1.1 431 ", 100_000),
        (
            followed!(CHUNKED, 100_000),
            CHUNKED.len(),
            "HTTP/1.1 400 ",
            100_000,
        ),
    ];
    for (peers, size, start, read) in ALL {
        check_drained(&rt, *peers, *size, *start, *read)?;
    }
    Ok(())
}

// Nothing is read after a message that was read completely, even if its response has status 400.
#[test]
fn nothing_is_read_after_a_complete_message(rt: HostRuntime) -> Result<(), Fail> {
    const ALL: &[(&[Peer], usize, &str)] = &[
        (followed!(RESET, 10), RESET.len(), "HTTP/1.1 200 "),
        (followed!(NO_JSON, 10), NO_JSON.len(), "HTTP/1.1 400 "),
        (
            followed!(b"GET /batch/a.b HTTP/1.1\r\n\r\n", 10),
            27,
            "HTTP/1.1 400 ",
        ),
        (
            followed!(b"GET /batch/ HTTP/1.1\r\n\r\n", 10),
            24,
            "HTTP/1.1 404 ",
        ),
        (
            followed!(b"PUT /batch/B9 HTTP/1.1\r\n\r\n", 10),
            26,
            "HTTP/1.1 405 ",
        ),
        (
            followed!(b"GET /batch/B9 HTTP/1.1\r\n\r\n", 10),
            26,
            "HTTP/1.1 409 ",
        ),
    ];
    for (peers, size, start) in ALL {
        check_drained(&rt, *peers, *size, *start, 0)?;
    }
    Ok(())
}

// A drain ends 10 s after the response, after 5 s without a byte, or when the connection ends.
#[test]
fn a_drain_ends_in_time(rt: HostRuntime) -> Result<(), Fail> {
    const SLOW: &[(u64, Piece)] = &[
        (0, Piece::Text(CHUNKED)),
        (4000, Piece::Many(10)),
        (8000, Piece::Many(10)),
        (9900, Piece::Many(10)),
        (10_100, Piece::Many(10)),
    ];
    const STOPS: &[(u64, Piece)] = &[
        (0, Piece::Text(CHUNKED)),
        (1000, Piece::Many(10)),
        (6100, Piece::Many(10)),
    ];
    const ENDS: &[(u64, Piece)] = &[
        (0, Piece::Text(CHUNKED)),
        (1000, Piece::Many(10)),
        (1100, Piece::End),
    ];
    const ALL: &[(&[Peer], usize)] = &[
        (before_another!(SLOW, 15_000), CHUNKED.len() + 30),
        (before_another!(STOPS, 15_000), CHUNKED.len() + 10),
        (before_another!(ENDS, 15_000), CHUNKED.len() + 10),
    ];
    for (peers, read) in ALL {
        check_end(&rt, *peers, 2, 15_000, *read)?;
    }
    Ok(())
}

// After the last turn the drains get at most one second, or less if they end earlier.
#[test]
fn the_last_drains_get_a_second(rt: HostRuntime) -> Result<(), Fail> {
    const COMPLETE: &[(u64, Piece)] = &[(0, Piece::Text(RESET))];
    const ENDS: &[(u64, Piece)] = &[
        (0, Piece::Text(CHUNKED)),
        (600, Piece::Many(10)),
        (700, Piece::End),
    ];
    const STAYS: &[(u64, Piece)] = &[
        (0, Piece::Text(CHUNKED)),
        (600, Piece::Many(10)),
        (1100, Piece::Many(10)),
    ];
    const ALL: &[(&[Peer], usize, u64)] = &[
        (before_another!(COMPLETE, 60_000), RESET.len(), 0),
        (before_another!(ENDS, 60_000), CHUNKED.len() + 10, 750),
        (before_another!(STAYS, 60_000), CHUNKED.len() + 10, 1000),
    ];
    for (peers, read, millis) in ALL {
        check_end(&rt, *peers, 1, *millis, *read)?;
    }
    Ok(())
}
