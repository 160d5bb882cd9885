//! A connection whose message is being received.
ghost use Rattle.std.specs.Prelude.{◌≡◌, ◌++◌, ◌≤◌, ℕ, List};
ghost use Rattle.std.specs.Io.KnownBytes.{Consumes};
ghost use Rattle.std.specs.Time.{instant_nanos};
ghost use Rattle.loopback.specs.Arriving.{bytes_of};
ghost use Rattle.loopback.specs.Waits.{is_late};

use crate::arrived::{Arrived, Came};
use crate::clock::is_late;
use crate::front::Front;
use std::io::Read;
use std::time::Instant;

/// A connection with its received bytes. `begun` is the time when it was accepted, and `last` the
/// time when its last byte was read.
#[derive(Drop)]
pub(crate) struct Pending<S: Read + Drop> {
    pub stream: S,
    pub arrived: Arrived,
    pub token: usize,
    begun: Instant,
    last: Instant,
}

impl<S: Read + Drop> Pending<S> {
    ghost use Rattle.std.specs.Prelude.{◌≡◌, ◌++◌, ◌≤◌, ℕ, List};
    ghost use Rattle.std.specs.Io.KnownBytes.{Consumes};
    ghost use Rattle.std.specs.Time.{instant_nanos};
    ghost use Rattle.loopback.specs.Arriving.{bytes_of};
    ghost use Rattle.loopback.specs.Waits.{is_late};

    /// Creates a connection that was accepted at `now`.
    pub(crate) fn new(stream: S, arrived: Arrived, token: usize, now: Instant) -> Pending<S>
        ensures stream { result.stream ≡ stream }
        ensures arrived { result.arrived ≡ arrived }
        ensures begun { result.begun ≡ now }
        ensures last { result.last ≡ now }
    {
        Pending {
            stream,
            arrived,
            token,
            begun: now,
            last: now,
        }
    }

    /// Reads the available bytes. Stops earlier if the message is settled, or if the `limit` bytes
    /// that may be reserved for its body are full. Returns `true` in the last case.
    pub(crate) fn read_there(&mut self, buf: &mut [u8], limit: usize, now: Instant) -> bool
        requires { self.old.arrived.reserved ≤ limit }
        ensures bytes { (more : List ℕ)
            × (bytes_of self.new.arrived ≡ bytes_of self.old.arrived ++ more)
            × Consumes (S.remaining self.old.stream) (S.remaining self.new.stream) more }
        ensures limit { self.new.arrived.reserved ≤ limit }
        ensures begun { self.new.begun ≡ self.old.begun }
    {
        for _ in 0..u64::MAX {
            if self.arrived.is_settled() {
                return false;
            }
            match self.arrived.read_once(&mut self.stream, buf, limit) {
                Came::Bytes => self.last = now,
                Came::Again => {}
                Came::Nothing => return false,
                Came::NoRoom => return true,
            }
        }
        false
    }

    /// Returns `true` if the message has taken too long.
    pub(crate) fn is_late(&self, now: Instant) -> bool
        ensures { result ≡ is_late (instant_nanos self.now.begun) (instant_nanos self.now.last)
            (instant_nanos now) }
    {
        is_late(self.begun, self.last, now)
    }

    /// Returns `true` if the last byte was read earlier than the last byte of `other`.
    pub(crate) fn waits_longer_than(&self, other: &Pending<S>) -> bool {
        !other.last.duration_since(self.last).is_zero()
    }

    /// Closes the connection, and returns the array of its first bytes for use by another one.
    pub(crate) fn into_front(self) -> Front {
        let arrived = self.arrived;
        arrived.front
    }
}
