//! The pending connections: those whose message is being received or waits to be served, and those
//! that are being drained. There are at most 128 of them, and the buffers of their bodies have at
//! most 64 MiB in total.
ghost use Rattle.std.specs.Prelude.{◌≡◌, ◌+◌, ◌<◌, ◌≤◌, vec_capacity, vec_len};
ghost use Rattle.std.specs.List.{sum_by};

use crate::drain::Drain;
use crate::front::Front;
use crate::pending::Pending;
use crate::watch::Watch;
use std::alloc::{AllocError, Global};
use std::io::Read;
use std::time::Instant;

/// The maximum number of pending connections.
pub(crate) const MOST_PENDING: usize = 128;

/// The maximum total size of the buffers for bodies, in bytes.
const MOST_RESERVED: usize = 64 * 1024 * 1024;

/// The slot for another connection.
#[derive(Clone, Copy, Debug, PartialEq, Eq)]
pub(crate) enum Room {
    /// A free slot.
    Free,
    /// The slot of the oldest drained connection.
    Drain,
    /// The slot of the connection at this position in `pending`.
    Pending(usize),
}

/// The pending connections. Both lists are in the order in which the connections were added.
#[derive(Drop)]
pub(crate) struct Slots<S: Read + Drop> {
    pending: Vec<Pending<S>>,
    drains: Vec<Drain<S>>,
    /// The arrays that aren't in use by a connection.
    spare: Vec<Front>,
    ghost few: { vec_len pending + vec_len drains ≤ 128 },
    ghost reserved: { sum_by (λ p. p.arrived.reserved) pending.items ≤ 67_108_864 },
    ghost room: { 128 ≤ vec_capacity pending },
    ghost drains_room: { 128 ≤ vec_capacity drains },
}

impl<S: Read + Drop> Slots<S> {
    ghost use Rattle.std.specs.Prelude.{◌≡◌, ◌+◌, ◌<◌, ◌≤◌, IfSome, Some, true, vec_len};
    ghost use Rattle.std.specs.Prelude.{position};
    ghost use Rattle.std.specs.List.{list_any, sum_by};
    ghost use Rattle.loopback.specs.Arriving.{is_settled, is_silent};
    ghost use Rattle.loopback.specs.Rooms.{IsRoom};

    /// Reserves all slots, and an array for the first bytes of every pending connection and of the
    /// connection that is being served.
    ///
    /// # Errors
    ///
    /// Returns `AllocError` if an allocation fails.
    pub(crate) fn reserve(alloc: Global) -> Result<Slots<S>, AllocError> {
        Ok(Slots {
            pending: Vec::with_capacity(alloc, MOST_PENDING)?,
            drains: Vec::with_capacity(alloc, MOST_PENDING)?,
            spare: Front::reserve_all(alloc, MOST_PENDING + 1)?,
        })
    }

    /// Returns an array that isn't in use. An array was reserved for every connection that may be
    /// pending or served, so no further array is reserved in practice.
    ///
    /// # Errors
    ///
    /// Returns `AllocError` if the allocation fails.
    pub(crate) fn take_front(&mut self, alloc: Global) -> Result<Front, AllocError>
        ensures { vec_len self.new.pending + vec_len self.new.drains
            ≤ vec_len self.old.pending + vec_len self.old.drains }
    {
        match self.spare.pop() {
            Some(front) => Ok(front),
            None => Front::reserve(alloc),
        }
    }

    /// Keeps the array of a connection that was served, for use by another one.
    pub(crate) fn keep_front(&mut self, front: Front) {
        // The list has room for all arrays.
        let _ = self.spare.push(front);
    }

    // Returns the number of bytes that are reserved for bodies.
    fn reserved(&self) -> usize
        ensures { result ≡ sum_by (λ p. p.arrived.reserved) self.now.pending.items }
    {
        self.pending.iter().map(|p| p.arrived.reserved).sum()
    }

    // Reads the available bytes of the connection at `at`. Returns `true` if the limit leaves no
    // space for its body.
    fn read_at(&mut self, at: usize, buf: &mut [u8], now: Instant) -> bool
        requires { at < vec_len self.old.pending }
        ensures pending { vec_len self.new.pending ≡ vec_len self.old.pending }
        ensures drains { self.new.drains ≡ self.old.drains }
    {
        let left = MOST_RESERVED - self.reserved();
        let pending = &mut self.pending[at];
        let limit = left + pending.arrived.reserved;
        pending.read_there(buf, limit, now)
    }

    /// Reads the connections that the last wait reported, or all of them if `is_all` is `true`. If
    /// the limit leaves no space for a body, the connection with the largest buffer is dropped.
    /// Nothing is dropped if a connection is settled, because it will be served next and its buffer
    /// freed.
    pub(crate) fn read_reported<W: Watch>(
        &mut self,
        watch: &W,
        is_all: bool,
        buf: &mut [u8],
        now: Instant,
    )
        ensures { vec_len self.new.pending + vec_len self.new.drains
            ≤ vec_len self.old.pending + vec_len self.old.drains }
    {
        let mut lacks_room = false;
        for at in 0..self.pending.len() {
            if is_all || watch.is_reported(self.pending[at].token) {
                lacks_room |= self.read_at(at, buf, now);
            }
        }
        if lacks_room && !self.has_settled() {
            self.drop_largest();
        }
    }

    /// Discards the available bytes of the drained connections that the last wait reported, or of
    /// all of them if `is_all` is `true`. Closes the connections whose drain has ended or took too
    /// long.
    pub(crate) fn drop_reported<W: Watch>(
        &mut self,
        watch: &W,
        is_all: bool,
        buf: &mut [u8],
        now: Instant,
    ) {
        let mut at = self.drains.len();
        while at > 0 {
            at -= 1;
            let drain = &mut self.drains[at];
            let is_read = is_all || watch.is_reported(drain.token);
            let is_done = is_read && drain.drop_there(buf, now);
            if is_done || drain.is_late(now) {
                let _ = self.drains.remove(at);
            }
        }
    }

    /// Ends the messages that took too long, after reading their available bytes. A connection that
    /// brought no bytes is dropped.
    pub(crate) fn end_late(&mut self, buf: &mut [u8], now: Instant) {
        let mut at = self.pending.len();
        while at > 0 {
            at -= 1;
            if self.pending[at].is_late(now) {
                self.read_at(at, buf, now);
                self.end_late_at(at, now);
            }
        }
    }

    /// Returns `true` if a connection is settled.
    pub(crate) fn has_settled(&self) -> bool
        ensures { result ≡ list_any (λ p. is_settled p.arrived) self.now.pending.items }
    {
        self.pending.iter().any(|p| p.arrived.is_settled())
    }

    /// Returns `true` if a connection isn't settled.
    pub(crate) fn has_open(&self) -> bool {
        self.pending.iter().any(|p| !p.arrived.is_settled())
    }

    /// Returns the position of the first settled connection.
    pub(crate) fn find_settled(&self) -> Option<usize>
        ensures first { result ≡ position (λ p. is_settled p.arrived) self.now.pending.items }
        ensures within { IfSome result (λ at. at < vec_len self.now.pending) }
    {
        self.pending.iter().position(|p| p.arrived.is_settled())
    }

    // Returns the position of the first connection that brought no bytes and isn't settled.
    fn find_silent(&self) -> Option<usize>
        ensures first { result ≡ position (λ p. is_silent p.arrived) self.now.pending.items }
        ensures within { IfSome result (λ at. at < vec_len self.now.pending) }
    {
        self.pending.iter().position(|p| p.arrived.is_silent())
    }

    // Returns the position of the connection that has waited longest for a byte among the
    // connections that aren't settled.
    fn find_longest(&self) -> Option<usize>
        ensures { IfSome result (λ at. at < vec_len self.now.pending) }
    {
        let mut found = None;
        for (at, pending) in self.pending.iter().enumerate() {
            let is_longer = match found {
                None => true,
                Some(first) => pending.waits_longer_than(&self.pending[first]),
            };
            if is_longer && !pending.arrived.is_settled() {
                found = Some(at);
            }
        }
        found
    }

    /// Returns the slot for another connection. Returns `None` if all slots are used and a
    /// connection is settled, because it will be served next and its slot freed.
    pub(crate) fn find_room(&self) -> Option<Room>
        ensures { IfSome result (IsRoom (vec_len self.now.pending) (vec_len self.now.drains)
            (list_any (λ p. is_settled p.arrived) self.now.pending.items)
            (position (λ p. is_silent p.arrived) self.now.pending.items)) }
    {
        if self.pending.len() + self.drains.len() < MOST_PENDING {
            return Some(Room::Free);
        }
        if self.has_settled() {
            return None;
        }
        if !self.drains.is_empty() {
            return Some(Room::Drain);
        }
        match self.find_silent() {
            Some(at) => Some(Room::Pending(at)),
            None => self.find_longest().map(Room::Pending),
        }
    }

    /// Frees the slot `room`. If a connection has this slot, it is dropped.
    pub(crate) fn make(&mut self, room: Room)
        requires { IsRoom (vec_len self.old.pending) (vec_len self.old.drains)
            (list_any (λ p. is_settled p.arrived) self.old.pending.items)
            (position (λ p. is_silent p.arrived) self.old.pending.items) room }
        ensures { vec_len self.new.pending + vec_len self.new.drains < 128 }
    {
        match room {
            Room::Free => {}
            Room::Drain => {
                let _ = self.drains.remove(0);
            }
            Room::Pending(at) => self.drop_at(at),
        }
    }

    // Drops the connection at `at`, and keeps its array.
    fn drop_at(&mut self, at: usize)
        requires { at < vec_len self.old.pending }
        ensures fewer { vec_len self.new.pending + 1 ≡ vec_len self.old.pending }
        ensures drains { self.new.drains ≡ self.old.drains }
    {
        let dropped = self.pending.remove(at);
        // The list has room for all arrays.
        let _ = self.spare.push(dropped.into_front());
    }

    /// Removes and returns the connection at `at`, which is the first settled one.
    pub(crate) fn take(&mut self, at: usize) -> Pending<S>
        requires { position (λ p. is_settled p.arrived) self.old.pending.items ≡ Some at }
        ensures { is_settled result.arrived ≡ true }
    {
        self.pending.remove(at)
    }

    /// Adds a connection, and reads its available bytes. Returns `true` if it is settled after
    /// that.
    pub(crate) fn add_read(&mut self, pending: Pending<S>, buf: &mut [u8], now: Instant) -> bool
        requires room { vec_len self.old.pending + vec_len self.old.drains < 128 }
        requires fresh { pending.arrived.reserved ≡ 0 }
    {
        let at = self.pending.len();
        self.pending.push_reserved(pending);
        self.read_at(at, buf, now);
        self.pending[at].arrived.is_settled()
    }

    /// Drops the connection that was added last.
    pub(crate) fn drop_last(&mut self) {
        let count = self.pending.len();
        if count > 0 {
            self.drop_at(count - 1);
        }
    }

    /// Returns `true` if a connection is being drained.
    pub(crate) fn has_drains(&self) -> bool {
        !self.drains.is_empty()
    }

    /// Adds a connection that is being drained.
    pub(crate) fn add_drain(&mut self, drain: Drain<S>)
        requires { vec_len self.old.pending + vec_len self.old.drains < 128 }
    {
        self.drains.push_reserved(drain);
    }

    // Ends the message of the connection at `at` if it took too long and isn't settled. If the
    // connection brought no bytes, it is dropped.
    fn end_late_at(&mut self, at: usize, now: Instant)
        requires { at < vec_len self.old.pending }
        ensures { vec_len self.old.pending ≤ vec_len self.new.pending + 1 }
    {
        if self.pending[at].arrived.is_settled() || !self.pending[at].is_late(now) {
            return;
        }
        if self.pending[at].arrived.is_silent() {
            self.drop_at(at);
        } else {
            self.pending[at].arrived.end_late();
        }
    }

    // Drops the connection with the largest buffer among the connections that aren't settled,
    // unless it is the only pending one.
    fn drop_largest(&mut self)
        ensures only { vec_len self.old.pending ≤ 1 → self.new.pending ≡ self.old.pending }
        ensures fewer { vec_len self.new.pending ≤ vec_len self.old.pending }
        ensures drains { self.new.drains ≡ self.old.drains }
    {
        if self.pending.len() < 2 {
            return;
        }
        if let Some(at) = self.find_largest() {
            self.drop_at(at);
        }
    }

    // Returns the position of the connection with the largest buffer among the connections that
    // aren't settled. A connection without a buffer is never returned.
    fn find_largest(&self) -> Option<usize>
        ensures { IfSome result (λ at. at < vec_len self.now.pending) }
    {
        let mut found = None;
        let mut most = 0;
        for (at, pending) in self.pending.iter().enumerate() {
            let reserved = pending.arrived.reserved;
            if reserved > most && !pending.arrived.is_settled() {
                most = reserved;
                found = Some(at);
            }
        }
        found
    }
}
