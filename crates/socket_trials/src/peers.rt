//! Tests of a server's connections: its port, the order, the time limits, and errors of `accept`.
use crate::crowd::{Crowd, Hall, Peer, Piece, Reports, crowd_of};
use http_messages::ByteSource;
use loopback::{Loopback, PeerWriter};
use server::{Connections, End, NextFault, Served};
use std::alloc::Global;
use std::io::{ErrorKind, Write};
use std::net::{Ipv4Addr, SocketAddr, SocketAddrV4};
use std::process::Abort;
use std::test::Fail;

const GET: &[u8] = b"GET /1 HTTP/1.1\r\n\r\n";

const SECOND: &[u8] = b"GET /2 HTTP/1.1\r\n\r\n";

const ONE: &[(u64, Piece)] = &[(0, Piece::Text(GET))];

const ONE_PEER: &[Peer] = crowd_of![(1, 0, ONE)];

pub(crate) const SERVED: Served = Served {
    end: End::Answered,
    decided: false,
};

// Returns the address of the port `port` of 127.0.0.1.
fn local(port: u16) -> SocketAddr {
    SocketAddr::V4(SocketAddrV4::new(Ipv4Addr::new(127, 0, 0, 1), port))
}

// Serves connections, each for `takes` milliseconds. Checks when each of them is served, and its
// bytes.
fn check(rt: &impl Abort, crowd: &Crowd, takes: u64, wanted: &[(u64, &[u8])]) -> Result<(), Fail> {
    let hall = Hall(crowd);
    let mut port = Loopback::listen(&hall, 1)?;
    for (at, bytes) in wanted {
        let (mut message, reply) = port.next()?;
        let mut buf = [0; 64];
        let count = message.bring(&mut buf);
        port.back(message, reply, SERVED);
        assert_eq!(rt; buf.get(..count), Some(*bytes));
        assert_eq!(rt; crowd.now(), *at);
        crowd.pass(takes);
    }
    Ok(())
}

// Returns the writer of the response to the first peer.
fn first_reply<'a, 'c>(hall: &'a Hall<'c>) -> Result<PeerWriter<'a, Hall<'c>>, Fail> {
    let (_message, reply) = Loopback::listen(hall, 1)?.next()?;
    Ok(reply)
}

// The server has no passwords, so other hosts must not be able to connect to it.
#[test]
fn only_this_machine_is_listened_to(rt: HostRuntime) -> Result<(), Fail> {
    for port in [8807, 0] {
        let crowd = Crowd::new(rt.alloc(), &[]);
        let hall = Hall(&crowd);
        let listening = Loopback::listen(&hall, port)?;
        assert_eq!(rt; listening.port(), port);
        assert_eq!(rt; crowd.bound.get(), (Some(local(port)), 1));
    }
    Ok(())
}

// The server must not try another port instead. It would wait there forever, and its drivers would
// send their requests to the process that listens on `port`.
#[test]
fn a_port_that_is_taken_is_asked_for_once(rt: HostRuntime) -> Result<(), Fail> {
    for kind in [
        ErrorKind::AddrInUse,
        ErrorKind::PermissionDenied,
        ErrorKind::AddrNotAvailable,
        ErrorKind::OutOfMemory,
    ] {
        let crowd = Crowd::new(rt.alloc(), &[]);
        crowd.taken.set(Some(kind));
        let hall = Hall(&crowd);
        let refused = match Loopback::listen(&hall, 8807) {
            Ok(_listening) => None,
            Err(error) => Some(error.kind()),
        };
        assert_eq!(rt; refused, Some(kind));
        assert_eq!(rt; crowd.bound.get(), (Some(local(8807)), 1));
    }
    Ok(())
}

const DRIPS: &[(u64, Piece)] = &[
    (1000, Piece::Text(b"a")),
    (4000, Piece::Text(b"b")),
    (8000, Piece::Text(b"c")),
    (12_000, Piece::Text(b"\r\n\r\n")),
];

const TWO: &[(u64, Piece)] = &[
    (0, Piece::Text(b"GET /2 HT")),
    (500, Piece::Text(b"TP/1.1\r\n\r\n")),
];

const FAILS: &[(u64, Piece)] = &[
    (0, Piece::Fails(ErrorKind::Interrupted)),
    (900, Piece::Fails(ErrorKind::ConnectionReset)),
];

// A silent peer, two slow ones, one that closes its connection, one that stops sending, one whose
// connection fails, and a fast one.
const ALL_KINDS: &[Peer] = crowd_of![
    (1, 0, &[]),
    (1, 0, DRIPS),
    (1, 0, TWO),
    (1, 0, &[(0, Piece::Text(b"GET")), (600, Piece::End)]),
    (1, 0, &[(0, Piece::Text(b"PUT"))]),
    (1, 0, FAILS),
    (1, 0, ONE),
];

// A message that is complete or cut off is served before a message that is still being received.
// The latter is served when it is complete or too late. A silent peer uses no turn.
#[test]
fn complete_messages_come_before_slow_ones(rt: HostRuntime) -> Result<(), Fail> {
    const WANTED: &[(u64, &[u8])] = &[
        (0, GET),
        (500, SECOND),
        (750, b"GET"),
        (1000, b""),
        (5000, b"PUT"),
        (10_000, b"abc"),
    ];
    for reports in [Reports::All, Reports::Nothing, Reports::Odd] {
        let crowd = Crowd::new(rt.alloc(), ALL_KINDS);
        crowd.reports.set(reports);
        check(&rt, &crowd, 0, WANTED)?;
    }
    Ok(())
}

// The first two messages are complete when the server reads them next. The connection that was
// accepted first is served first.
#[test]
fn complete_messages_come_as_they_were_accepted(rt: HostRuntime) -> Result<(), Fail> {
    const PEERS: &[Peer] = crowd_of![
        (1, 0, &[(190, Piece::Text(b"GET /b HTTP/1.1\r\n\r\n"))]),
        (1, 0, &[(110, Piece::Text(b"GET /a HTTP/1.1\r\n\r\n"))]),
        (1, 130, ONE),
    ];
    const WANTED: &[(u64, &[u8])] = &[
        (250, b"GET /b HTTP/1.1\r\n\r\n"),
        (250, b"GET /a HTTP/1.1\r\n\r\n"),
        (250, GET),
    ];
    let crowd = Crowd::new(rt.alloc(), PEERS);
    check(&rt, &crowd, 0, WANTED)
}

// No message is late because another request took long. The bytes that arrived meanwhile are read
// before the time limit is checked.
#[test]
fn a_long_request_costs_no_peer_its_turn(rt: HostRuntime) -> Result<(), Fail> {
    const LATER: &[(u64, Piece)] = &[
        (0, Piece::Text(b"GET /2 HT")),
        (4000, Piece::Text(b"TP/1.1\r\n\r\n")),
    ];
    const PEERS: &[Peer] = crowd_of![(1, 0, LATER), (1, 0, ONE), (1, 7000, ONE)];
    const WANTED: &[(u64, &[u8])] = &[(0, GET), (20_250, SECOND), (40_250, GET)];
    for reports in [Reports::All, Reports::Nothing] {
        let crowd = Crowd::new(rt.alloc(), PEERS);
        crowd.reports.set(reports);
        check(&rt, &crowd, 20_000, WANTED)?;
    }
    Ok(())
}

// The time limit of a message starts when its connection is accepted.
#[test]
fn a_late_connection_has_its_whole_time(rt: HostRuntime) -> Result<(), Fail> {
    const LATE: &[(u64, Piece)] = &[
        (0, Piece::Text(b"GET /2 HT")),
        (24_900, Piece::Text(b"TP/1.1\r\n\r\n")),
    ];
    const PEERS: &[Peer] = crowd_of![(1, 0, LATE)];
    let crowd = Crowd::new(rt.alloc(), PEERS);
    crowd.accept_takes.set(20_000);
    check(&rt, &crowd, 0, &[(25_000, SECOND)])
}

// Returns the bytes of the first message, which is read in pieces of at most `size` bytes.
fn received(alloc: Global, hall: &Hall<'_>, size: usize) -> Result<Vec<u8>, Fail> {
    let (mut message, _reply) = Loopback::listen(hall, 1)?.next()?;
    let mut buf = vec![in alloc; 0; size]?;
    let mut bytes = Vec::new(alloc);
    for _ in 0..30_000 {
        if buf.is_empty() {
            return Err(Fail::new("no buffer"));
        }
        let count = message.bring(&mut buf);
        bytes.extend_from_slice(buf.get(..count).unwrap_or(&[]))?;
    }
    Ok(bytes)
}

// A reader returns the received bytes, in pieces of any size.
#[test]
fn bytes_come_as_they_were_sent(rt: HostRuntime) -> Result<(), Fail> {
    const HEAD: &[u8] = b"POST / HTTP/1.1\r\nContent-Length: 20000\r\n\r\n";
    const PIECES: &[(u64, Piece)] = &[
        (0, Piece::Text(HEAD)),
        (300, Piece::Many(10_000)),
        (600, Piece::Many(9997)),
        (900, Piece::Text(b"end of another")),
    ];
    const PEERS: &[Peer] = crowd_of![(1, 0, PIECES)];
    for size in [1, 7, 8192, 60_000] {
        let crowd = Crowd::new(rt.alloc(), PEERS);
        let hall = Hall(&crowd);
        let all = received(rt.alloc(), &hall, size)?;
        let bytes = all.as_slice();
        assert_eq!(rt; crowd.now(), 1000);
        // Only the message is read. Its head has 42 bytes.
        assert_eq!(rt; (bytes.len(), crowd.first_read.get()), (20_042, 20_042));
        assert!(rt; bytes.starts_with(b"POST / HTTP/1.1\r\n"));
        assert!(rt; bytes.ends_with(b"end"));
    }
    Ok(())
}

// The 10 s of a response start with its first write, and aren't restarted.
#[test]
fn a_reply_has_its_time_once(rt: HostRuntime) -> Result<(), Fail> {
    let crowd = Crowd::new(rt.alloc(), ONE_PEER);
    let hall = Hall(&crowd);
    let mut reply = first_reply(&hall)?;
    crowd.pass(30_000);
    for (after, is_taken, wait) in [(0, true, 5000), (8000, true, 2000), (2000, false, 2000)] {
        crowd.pass(after);
        assert_eq!(rt; reply.write(&[0; 2]).is_ok(), is_taken, "{wait}");
        let limit = crowd.write_wait.get().map(|wait| wait.as_millis());
        assert_eq!(rt; limit, Some(wait));
    }
    Ok(())
}

// A signal doesn't end a response, even if it stops the process for a while. The response fails
// only if its time is over.
#[test]
fn a_signal_ends_no_reply(rt: HostRuntime) -> Result<(), Fail> {
    for (signals, millis, is_taken) in [(2, 4900, true), (4, 4000, false)] {
        let crowd = Crowd::new(rt.alloc(), ONE_PEER);
        let hall = Hall(&crowd);
        let mut reply = first_reply(&hall)?;
        crowd
            .write_faults
            .set((signals, millis, ErrorKind::Interrupted));
        assert_eq!(rt; reply.write(b"cd").is_ok(), is_taken);
    }
    Ok(())
}

#[test]
fn a_connection_is_asked_for_fifty_times(rt: HostRuntime) -> Result<(), Fail> {
    let often = [
        (49, ErrorKind::Other, None),
        (50, ErrorKind::Other, Some(NextFault::Device)),
        (50, ErrorKind::OutOfMemory, Some(NextFault::Memory)),
    ];
    for (faults, kind, fault) in often {
        let crowd = Crowd::new(rt.alloc(), ONE_PEER);
        crowd.faults.set((faults, kind));
        let hall = Hall(&crowd);
        let refused = match Loopback::listen(&hall, 1)?.next() {
            Ok((_message, _reply)) => None,
            Err(refused) => Some(refused),
        };
        assert_eq!(rt; refused, fault);
        assert_eq!(rt; crowd.faults.get().0, 0);
        assert_eq!(rt; crowd.now(), 4900);
    }
    Ok(())
}
