//! Tests of connections that lost bytes because an allocation failed.
use event_lines::{EventLog, Level};
use http_messages::{ByteSource, Pieces};
use list_store::ListStore;
use server::{Connections, NextFault, Served};
use server_run::{Opened, serve_and_report};
use std::alloc::Global;
use std::test::Fail;

// A reader of the first bytes of a connection. The other bytes were lost.
#[derive(Drop)]
struct Shortened<'a> {
    first: Pieces<'a>,
}

impl ByteSource for Shortened<'_> {
    ghost use Rattle.std.specs.Prelude.{None, true};

    ghost brings = { λ _. None };

    ghost cut = { λ _. true };

    fn bring(&mut self, buf: &mut [u8]) -> usize {
        self.first.bring(buf)
    }

    fn is_cut(&self) -> bool {
        true
    }
}

// Connections that all bring the bytes `first`, and the response to the last one.
#[derive(Drop)]
struct Losing<'a> {
    first: &'a [u8],
    reply: Option<Vec<u8>>,
}

impl<'a> Connections for Losing<'a> {
    ghost use Rattle.std.specs.Prelude.{None, ⊤};

    type In = Shortened<'a>;

    type Out = Vec<u8>;

    ghost queue = { λ _. None };

    ghost awaits = { λ _. ⊤ };

    ghost refuses = { λ _ _. ⊤ };

    fn next(&mut self) -> Result<(Shortened<'a>, Vec<u8>), NextFault> {
        let Some(reply) = self.reply.take() else {
            return Err(NextFault::Device);
        };
        let first = Pieces::new(self.first, 7);
        Ok((Shortened { first }, reply))
    }

    fn back(&mut self, _incoming: Shortened<'a>, writer: Vec<u8>, _served: Served) {
        self.reply = Some(writer);
    }
}

const OPENED: Opened<'static> = Opened {
    path: b"shop.db",
    is_new: true,
    has_log: false,
    older: None,
};

// Serves a connection that brings only the bytes `first`, and returns its response.
fn served(alloc: Global, first: &[u8]) -> Result<Vec<u8>, Fail> {
    let mut connections = Losing {
        first,
        reply: Some(Vec::new(alloc)),
    };
    let mut lines: Vec<u8> = Vec::new(alloc);
    let mut events: EventLog<Vec<u8>> = EventLog::new(Level::Off, Vec::new(alloc));
    serve_and_report(
        alloc,
        ListStore::new(alloc),
        &mut connections,
        &mut lines,
        &mut events,
        &OPENED,
        8807,
        1,
    )?;
    Ok(connections.reply.take().ok_or("no connection")?)
}

// A message gets status 503 only if its head is complete and passes its tests. The response to any
// other message doesn't depend on the lost bytes.
#[test]
fn a_message_that_lost_its_body_gets_503(rt: HostRuntime) -> Result<(), Fail> {
    let table: [(&[u8], &[u8]); 4] = [
        (
            b"POST /c/m1/1 HTTP/1.1\r\nContent-Length: 14\r\n\r\n{\"do\":",
            b"HTTP/1.1 503 ",
        ),
        (
            b"POST /c/m1/1 HTTP/1.1\r\nContent-Length: 16777217\r\n\r\n",
            b"HTTP/1.1 413 ",
        ),
        (
            b"POST /c/m1/1 HTTP/1.1\r\nContent-Length: x\r\n\r\n",
            b"HTTP/1.1 400 ",
        ),
        (b"GET /batch/B9 HTTP/1.1\r\n", b""),
    ];
    for (first, start) in table {
        let reply = served(rt.alloc(), first)?;
        assert!(rt; reply.starts_with(start));
        assert_eq!(rt; reply.is_empty(), start.is_empty());
    }
    Ok(())
}
