//! Reads and discards the remaining bytes of a connection after its response.
ghost use Rattle.std.specs.Prelude.{◌≡◌, ◌+◌, ℕ, List, length};
ghost use Rattle.std.specs.Io.KnownBytes.{Consumes};
ghost use Rattle.loopback.specs.Drains.{most_drained};

use crate::clock::is_late;
use std::io::{ErrorKind, Read};
use std::time::Instant;
use text_io::MOST_INPUT;

/// The maximum number of bytes that are discarded: the largest head and the largest body.
const MOST_DRAINED: usize = MOST_INPUT as usize + 8_192;

/// A connection whose response was written before its message was read completely. Closing a socket
/// with unread bytes resets the connection, and the peer may lose the response. The socket
/// therefore remains open for a while, and its bytes are discarded.
#[derive(Drop)]
pub(crate) struct Drain<S: Read + Drop> {
    pub stream: S,
    pub token: usize,
    left: usize,
    begun: Instant,
    last: Instant,
}

// The result of one read.
#[derive(Clone, Copy)]
enum Dropped {
    /// More bytes may be available.
    Some,
    /// No bytes are available now.
    Nothing,
    /// The drain has ended.
    All,
}

impl<S: Read + Drop> Drain<S> {
    ghost use Rattle.std.specs.Prelude.{◌≡◌, ◌+◌, ℕ, List, length};
    ghost use Rattle.std.specs.Io.KnownBytes.{Consumes};
    ghost use Rattle.loopback.specs.Drains.{most_drained};

    /// Starts to drain a connection whose response was written at `now`.
    pub(crate) fn new(stream: S, token: usize, now: Instant) -> Drain<S>
        ensures { result.left ≡ most_drained }
    {
        Drain {
            stream,
            token,
            left: MOST_DRAINED,
            begun: now,
            last: now,
        }
    }

    // Reads once, and discards the bytes.
    fn drop_once(&mut self, buf: &mut [u8], now: Instant) -> Dropped
        ensures { (more : List ℕ)
            × Consumes (S.remaining self.old.stream) (S.remaining self.new.stream) more
            × (length more + self.new.left ≡ self.old.left) }
    {
        let most = self.left.min(buf.len());
        if most == 0 {
            return Dropped::All;
        }
        match self.stream.read(&mut buf[..most]) {
            Ok(0) => Dropped::All,
            Ok(count) => {
                self.left -= count;
                self.last = now;
                Dropped::Some
            }
            Err(error) => match error.kind() {
                ErrorKind::WouldBlock => Dropped::Nothing,
                ErrorKind::Interrupted => Dropped::Some,
                _ => Dropped::All,
            },
        }
    }

    /// Discards the available bytes. Returns `true` if the drain has ended.
    pub(crate) fn drop_there(&mut self, buf: &mut [u8], now: Instant) -> bool
        ensures { (more : List ℕ)
            × Consumes (S.remaining self.old.stream) (S.remaining self.new.stream) more
            × (length more + self.new.left ≡ self.old.left) }
    {
        for _ in 0..u64::MAX {
            match self.drop_once(buf, now) {
                Dropped::Some => {}
                Dropped::Nothing => return false,
                Dropped::All => return true,
            }
        }
        true
    }

    /// Returns `true` if the drain took too long.
    pub(crate) fn is_late(&self, now: Instant) -> bool {
        is_late(self.begun, self.last, now)
    }
}
