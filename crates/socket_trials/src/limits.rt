//! Tests of the limits: which connection is dropped if there are too many, or if their bodies are
//! too large together.
use crate::crowd::{Crowd, Hall, Peer, Piece, crowd_of};
use http_messages::ByteSource;
use loopback::Loopback;
use server::{Connections, End, Served};
use std::alloc::Global;
use std::process::Abort;
use std::test::Fail;

const GET: &[u8] = b"GET /1 HTTP/1.1\r\n\r\n";

const ONE: &[(u64, Piece)] = &[(0, Piece::Text(GET))];

const SILENT: &[(u64, Piece)] = &[];

// A peer that never sends the end of its head. Its last byte arrives at 200 ms.
const TALKS: &[(u64, Piece)] = &[(0, Piece::Text(b"GET")), (200, Piece::Text(b"x"))];

const REFUSED: &[u8] = b"GET / HTTP/1.1\nX\r\n\r\n";

// Checks when each of the next connections is served, and how many bytes it brings.
fn check(
    rt: &impl Abort,
    alloc: Global,
    peers: &'static [Peer],
    wanted: &[(u64, usize)],
) -> Result<(), Fail> {
    let crowd = Crowd::new(alloc, peers);
    let hall = Hall(&crowd);
    let mut port = Loopback::listen(&hall, 1)?;
    for (at, size) in wanted {
        let (mut message, reply) = port.next()?;
        let mut count = 0usize;
        let mut buf = [0; 8192];
        for _ in 0..10_000 {
            let brought = message.bring(&mut buf);
            if brought == 0 {
                break;
            }
            count = count.saturating_add(brought);
        }
        let served = Served {
            end: End::Answered,
            decided: false,
        };
        port.back(message, reply, served);
        assert_eq!(rt; count, *size);
        assert_eq!(rt; crowd.now(), *at);
    }
    Ok(())
}

// The 129th connection gets the slot of a silent connection, or otherwise of the connection that
// has waited longest for a byte. Two of the dropped connections would be complete later, but are
// never served.
#[test]
fn the_silent_are_dropped_before_those_that_wait(rt: HostRuntime) -> Result<(), Fail> {
    const LATER: &[(u64, Piece)] = &[(3000, Piece::Text(GET))];
    const WAITS: &[(u64, Piece)] = &[
        (0, Piece::Text(b"GET /1 H")),
        (2000, Piece::Text(b"TTP/1.1\r\n\r\n")),
    ];
    const PEERS: &[Peer] = crowd_of![
        (100, 0, TALKS),
        (1, 0, WAITS),
        (1, 0, LATER),
        (26, 0, TALKS),
        (1, 300, ONE),
        (1, 600, SILENT),
        (1, 800, ONE),
        (1, 1100, TALKS),
        (1, 1300, ONE),
    ];
    let size = GET.len();
    // The first connection that sends `TALKS` is broken 5 s after its last byte was read.
    check(
        &rt,
        rt.alloc(),
        PEERS,
        &[(500, size), (1000, size), (1500, size), (5250, 4)],
    )
}

// A drained connection is dropped before a silent one.
#[test]
fn the_drained_are_dropped_first(rt: HostRuntime) -> Result<(), Fail> {
    const DRAINED: &[(u64, Piece)] = &[(0, Piece::Text(REFUSED)), (3000, Piece::Many(10))];
    const LATER: &[(u64, Piece)] = &[(3000, Piece::Text(GET))];
    const PEERS: &[Peer] = crowd_of![
        (1, 0, DRAINED),
        (1, 0, LATER),
        (126, 0, TALKS),
        (1, 300, ONE),
    ];
    let size = GET.len();
    check(
        &rt,
        rt.alloc(),
        PEERS,
        &[(0, REFUSED.len()), (500, size), (3000, size)],
    )
}

// A message in two pieces isn't dropped while ended connections use all the other slots. These are
// served first, and free their slots.
#[test]
fn nothing_is_dropped_if_settled_connections_free_slots(rt: HostRuntime) -> Result<(), Fail> {
    const ENDS: &[(u64, Piece)] = &[(0, Piece::End)];
    const WAITS: &[(u64, Piece)] = &[
        (0, Piece::Text(b"GET /1 H")),
        (300, Piece::Text(b"TTP/1.1\r\n\r\n")),
    ];
    const PEERS: &[Peer] = crowd_of![(1, 0, WAITS), (200, 0, ENDS), (1, 300, ONE)];
    let size = GET.len();
    let mut wanted = [(0, 0); 202];
    wanted[200] = (500, size);
    wanted[201] = (500, size);
    check(&rt, rt.alloc(), PEERS, &wanted)
}

// Settled connections aren't dropped. The others wait to be accepted.
#[test]
fn the_settled_are_not_dropped(rt: HostRuntime) -> Result<(), Fail> {
    const PEERS: &[Peer] = crowd_of![(300, 0, ONE)];
    check(&rt, rt.alloc(), PEERS, &[(0, GET.len()); 300])
}

// Four bodies of 16 MiB use all the space for bodies. When a fifth body needs some, the connection
// with the largest buffer is dropped, and the others are served.
#[test]
fn the_largest_is_dropped_if_no_room_is_left(rt: HostRuntime) -> Result<(), Fail> {
    const HEAD: &[u8] = b"POST / HTTP/1.1\r\nContent-Length: 16777216\r\n\r\n";
    const SMALL: &[(u64, Piece)] = &[
        (0, Piece::Text(HEAD)),
        (0, Piece::Many(15_000_000)),
        (1000, Piece::Many(1_777_216)),
    ];
    const PEERS: &[Peer] = crowd_of![(5, 0, SMALL), (1, 300, ONE)];
    let all = HEAD.len() + 16_777_216;
    let wanted = [
        (500, GET.len()),
        (1000, all),
        (1000, all),
        (1000, all),
        (1000, all),
    ];
    check(&rt, rt.alloc(), PEERS, &wanted)
}
