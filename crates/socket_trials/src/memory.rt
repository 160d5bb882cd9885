//! A test of failed allocations in a server over sockets. `bench/run refused` makes each allocation
//! fail in turn, first only this one, and then also all later ones.
use crate::crowd::{Crowd, Hall, Peer, Piece, Written, crowd_of};
use crate::drains::{CHUNKED, ENDLESS, RESET, TOO_LARGE};
use list_store::ListStore;
use loopback::Loopback;
use server::{Connections, End, Served, serve_one};
use std::alloc::Global;
use std::io::{ErrorKind, Write};
use std::process::Abort;
use std::test::Fail;

// The heads of messages that don't fit into 8,192 bytes. Their bodies are received in a buffer that
// grows once.
const IMPORT: &[u8] = b"POST /c/office/1/batch/B1/P1 HTTP/1.1\r\nContent-Length: 80000\r\n\r\n";

const SECOND_IMPORT: &[u8] =
    b"POST /c/office/2/batch/B1/P1 HTTP/1.1\r\nContent-Length: 80000\r\n\r\n";

// A head without its end.
const BROKEN: &[u8] = b"GET /batch/B9 HTTP/1.1\r\n";

const PEERS: &[Peer] = crowd_of![
    (1, 0, &[(0, Piece::Text(CHUNKED))]),
    (1, 0, &[(0, Piece::Text(RESET))]),
    (1, 0, &[(0, Piece::Text(IMPORT)), (0, Piece::Many(80_000))]),
    (1, 0, &[(0, Piece::Text(TOO_LARGE))]),
    (1, 0, &[(0, Piece::Text(RESET))]),
    (
        1,
        0,
        &[(0, Piece::Text(SECOND_IMPORT)), (0, Piece::Many(80_000))]
    ),
    (1, 0, &[(0, Piece::Text(ENDLESS))]),
    (1, 0, &[(0, Piece::Text(BROKEN)), (0, Piece::End)]),
];

macro_rules! response {
    ($status:literal, $size:literal, $body:literal) => {
        concat!(
            "HTTP/1.1 ",
            $status,
            "\r\nContent-Type: application/json\r\nContent-Length: ",
            $size,
            "\r\nConnection: close\r\n\r\n",
            $body
        )
    };
}

const MALFORMED: &str = response!(
    "400 Bad Request",
    "34",
    r#"{"code":400,"refused":"malformed"}"#
);

const TOO_LARGE_BODY: &str = response!(
    "413 Payload Too Large",
    "34",
    r#"{"code":413,"refused":"too-large"}"#
);

const TOO_LARGE_HEAD: &str = response!(
    "431 Request Header Fields Too Large",
    "39",
    r#"{"code":431,"refused":"head-too-large"}"#
);

const UNAVAILABLE: &str = response!(
    "503 Service Unavailable",
    "32",
    r#"{"code":503,"refused":"storage"}"#
);

const WAS_RESET: &str = response!("200 OK", "30", r#"{"result":"reset","session":0}"#);

const NO_PRODUCT: &str = response!(
    "409 Conflict",
    "39",
    r#"{"code":52,"refused":"product-unknown"}"#
);

// The response to each peer, and `true` if its message is a request, which needs memory.
const RESPONSES: [(&str, bool); 8] = [
    (MALFORMED, false),
    (WAS_RESET, true),
    (NO_PRODUCT, true),
    (TOO_LARGE_BODY, false),
    (WAS_RESET, true),
    (NO_PRODUCT, true),
    (TOO_LARGE_HEAD, false),
    ("", false),
];

// Returns `true` if an allocation succeeds.
fn has_memory(alloc: Global) -> bool {
    Vec::<u8>::with_capacity(alloc, 1).is_ok()
}

// Checks the response to a connection and its outcome. Returns `true` if a request got 503.
fn is_unavailable(
    rt: &impl Abort,
    served: Served,
    written: &[u8],
    response: &'static str,
    is_request: bool,
) -> bool {
    let lacks_memory = is_request && !served.decided;
    let wanted = if lacks_memory { UNAVAILABLE } else { response };
    assert_eq!(rt; written, wanted.as_bytes());
    let is_broken = wanted.is_empty();
    let end = if is_broken {
        End::Broken
    } else {
        End::Answered
    };
    let decided = is_request && !lacks_memory;
    assert_eq!(rt; served, Served { end, decided });
    lacks_memory
}

// After `listen`, every connection is served once, in order. Only a request can get 503, and at
// most one request does if only one allocation fails.
#[test]
fn a_failed_allocation_costs_no_connection(rt: HostRuntime) -> Result<(), Fail> {
    let crowd = Crowd::new(rt.alloc(), PEERS);
    let hall = Hall(&crowd);
    let listening = match Loopback::listen(&hall, 1) {
        Err(error) if error.kind() == ErrorKind::OutOfMemory => Loopback::listen(&hall, 1),
        listening => listening,
    };
    let mut port = match listening {
        Err(error) if error.kind() == ErrorKind::OutOfMemory => {
            assert!(rt; !has_memory(rt.alloc()));
            return Ok(());
        }
        listening => listening?,
    };
    let mut store = ListStore::new(rt.alloc());
    let mut unavailable = 0u32;
    for (response, is_request) in RESPONSES {
        let (mut message, mut reply) = port.next()?;
        let mut written = Written::new();
        let served = serve_one(rt.alloc(), &mut store, &mut message, &mut written);
        reply.write(written.as_slice())?;
        port.back(message, reply, served);
        let written = crowd.take_written();
        if is_unavailable(&rt, served, written.as_slice(), response, is_request) {
            unavailable = unavailable.saturating_add(1);
        }
    }
    assert_eq!(rt; crowd.came.get(), RESPONSES.len());
    assert!(rt; unavailable <= 1 || !has_memory(rt.alloc()));
    Ok(())
}
