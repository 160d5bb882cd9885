//! The received bytes of a connection, and the progress of its message.
ghost use Rattle.std.specs.Prelude.{◌≡◌, ◌+◌, ◌<◌, ◌≤◌, ◌++◌, ℕ, List, [], length, max, take};
ghost use Rattle.std.specs.Prelude.{vec_capacity, vec_len};
ghost use Rattle.std.specs.Io.KnownBytes.{Consumes};
ghost use Rattle.http_messages.specs.Progresses.{IsProgress};

use crate::front::Front;
use http_messages::{MOST_HEAD, Progress, progress_from, progress_of};
use std::alloc::{AllocError, Global};
use std::io::{self, ErrorKind, Read};

/// The number of bytes that are reserved first for a body that doesn't fit next to its head. Fewer
/// are reserved if the message needs fewer or the limit allows fewer.
const LEAST_RESERVED: usize = 65_536;

/// The reason why no more bytes are read, although the message is neither complete nor refused.
#[derive(Clone, Copy, Debug, PartialEq, Eq)]
pub(crate) enum Stop {
    /// The end of the connection, or a failed read.
    Ended,
    /// A message that took too long.
    Late,
    /// A failed allocation.
    Memory,
}

/// The result of one read.
#[derive(Clone, Copy, Debug, PartialEq, Eq)]
pub(crate) enum Came {
    /// One or more bytes.
    Bytes,
    /// No bytes, because a signal interrupted the read, or because no more bytes will be read.
    Again,
    /// No bytes, because none are available now.
    Nothing,
    /// No bytes, because the limit leaves no space for them.
    NoRoom,
}

/// The received bytes of a connection. The first 8,192 are in an array that was reserved before the
/// connection was accepted, and the others are in a buffer that grows.
#[derive(Drop)]
pub(crate) struct Arrived {
    pub front: Front,
    pub rest: Vec<u8>,
    pub progress: Progress,
    pub stop: Option<Stop>,
    /// The number of bytes that are reserved for `rest`.
    pub reserved: usize,
    ghost few: { vec_len front.bytes ≤ 8192 },
    ghost first: { vec_len front.bytes < 8192 → rest.items ≡ [] },
    ghost kept: { vec_len rest ≤ reserved },
    ghost room: { reserved ≤ vec_capacity rest },
    ghost told: { ∥ IsProgress (front.bytes.items ++ rest.items) progress ∥₁ },
}

// Reads once into `buf`, and appends the bytes to `into`. Its capacity is large enough for them.
fn read_into<S: Read>(stream: &mut S, into: &mut Vec<u8>, buf: &mut [u8]) -> io::Result<usize>
    requires { vec_len into.old + length buf.old ≤ vec_capacity into.old }
    ensures bytes { (more : List ℕ) × (into.new.items ≡ into.old.items ++ more)
        × Consumes (S.remaining stream.old) (S.remaining stream.new) more }
    ensures few { vec_len into.new ≤ vec_len into.old + length buf.old }
    ensures capacity { vec_capacity into.old ≤ vec_capacity into.new }
{
    let count = stream.read(buf)?;
    let _ = into.extend_from_slice(&buf[..count]);
    Ok(count)
}

// Returns the progress of a message if `front` was received. It was `progress` when only the first
// `from` of these bytes were received.
fn progress_on(progress: Progress, front: &[u8], from: usize) -> Progress
    requires few { length front.now ≤ 8192 }
    requires within { from ≤ length front.now }
    requires told { ∥ IsProgress (take from front.now) progress ∥₁ }
    ensures { ∥ IsProgress front.now result ∥₁ }
{
    match progress {
        Progress::Head => progress_from(front, from),
        Progress::Body { total } => progress_of(total, front.len()),
        Progress::Message => progress,
        Progress::Refused => progress,
    }
}

impl Arrived {
    ghost use Rattle.std.specs.Prelude.{◌≡◌, ◌+◌, ◌<◌, ◌≤◌, ◌++◌, ℕ, List, [], length, max};
    ghost use Rattle.std.specs.Prelude.{vec_len, OnOk, true, false};
    ghost use Rattle.std.specs.Io.KnownBytes.{Consumes};
    ghost use Rattle.loopback.specs.Arriving.{bytes_of, is_settled, is_silent};

    /// Creates the state of a connection before any bytes are received. Keeps the array `front`,
    /// but removes its bytes.
    pub(crate) fn new(alloc: Global, front: Front) -> Arrived
        ensures bytes { bytes_of result ≡ [] }
        ensures reserved { result.reserved ≡ 0 }
        ensures open { is_settled result ≡ false }
    {
        Arrived {
            front: front.cleared(),
            rest: Vec::new(alloc),
            progress: Progress::Head,
            stop: None,
            reserved: 0,
        }
    }

    /// Returns `true` if the message is complete or refused, or if no more bytes are read.
    pub(crate) fn is_settled(&self) -> bool
        ensures { result ≡ is_settled self.now }
    {
        match self.progress {
            Progress::Head | Progress::Body { .. } => self.stop.is_some(),
            Progress::Message | Progress::Refused => true,
        }
    }

    /// Returns the number of received bytes.
    pub(crate) fn len(&self) -> usize
        ensures { result ≡ length (bytes_of self.now) }
    {
        let front = self.front.bytes.as_slice();
        let rest = self.rest.as_slice();
        front.len() + rest.len()
    }

    /// Returns `true` if no bytes were received and some may still arrive.
    pub(crate) fn is_silent(&self) -> bool
        ensures { result ≡ is_silent self.now }
    {
        self.front.bytes.is_empty() && !self.is_settled()
    }

    // Reads once into the array of the first bytes.
    fn read_front<S: Read>(&mut self, stream: &mut S, buf: &mut [u8]) -> io::Result<usize>
        requires { vec_len self.old.front.bytes < 8192 }
        ensures bytes { (more : List ℕ) × (bytes_of self.new ≡ bytes_of self.old ++ more)
            × Consumes (S.remaining stream.old) (S.remaining stream.new) more }
        ensures reserved { self.new.reserved ≡ self.old.reserved }
    {
        let first = self.front.bytes.as_slice();
        let from = first.len();
        let most = buf.len().min(MOST_HEAD - from);
        let read = read_into(stream, &mut self.front.bytes, &mut buf[..most]);
        self.progress = progress_on(self.progress, &self.front.bytes, from);
        read
    }

    // Reserves space for more bytes of a message of `total` bytes, up to `limit` bytes in all.
    // After `Ok`, more bytes fit into `rest`, unless the limit doesn't allow it.
    fn grow(&mut self, total: usize, limit: usize) -> Result<(), AllocError>
        ensures front { self.new.front ≡ self.old.front }
        ensures rest { self.new.rest.items ≡ self.old.rest.items }
        ensures progress { self.new.progress ≡ self.old.progress }
        ensures limit { self.new.reserved ≤ max self.old.reserved limit }
    {
        if self.rest.len() < self.reserved {
            return Ok(());
        }
        let wanted = self.reserved.saturating_mul(2).max(LEAST_RESERVED);
        let most = total.saturating_sub(MOST_HEAD).min(limit);
        let reserved = wanted.min(most).max(self.reserved);
        self.rest.reserve_exact(reserved - self.rest.len())?;
        self.reserved = reserved;
        Ok(())
    }

    // Reads once into the space that `grow` reserved for a message of `total` bytes.
    fn read_rest<S: Read>(
        &mut self,
        stream: &mut S,
        buf: &mut [u8],
        total: usize,
    ) -> io::Result<usize>
        requires body { self.old.progress ≡ Progress.Body total }
        requires full { 8192 ≤ vec_len self.old.front.bytes }
        ensures bytes { (more : List ℕ) × (bytes_of self.new ≡ bytes_of self.old ++ more)
            × Consumes (S.remaining stream.old) (S.remaining stream.new) more }
        ensures reserved { self.new.reserved ≡ self.old.reserved }
    {
        let most = buf.len().min(self.reserved - self.rest.len());
        let read = read_into(stream, &mut self.rest, &mut buf[..most]);
        let front = self.front.bytes.as_slice();
        let rest = self.rest.as_slice();
        self.progress = progress_of(total, front.len() + rest.len());
        read
    }

    // Converts the result of a read. If it was the last read, records why.
    fn note(&mut self, read: io::Result<usize>) -> Came
        ensures bytes { bytes_of self.new ≡ bytes_of self.old }
        ensures reserved { self.new.reserved ≡ self.old.reserved }
    {
        match read {
            Ok(0) => self.stop_by(Stop::Ended),
            Ok(_) => Came::Bytes,
            Err(error) => match error.kind() {
                ErrorKind::WouldBlock => Came::Nothing,
                ErrorKind::Interrupted => Came::Again,
                _ => self.stop_by(Stop::Ended),
            },
        }
    }

    // Records that no more bytes are read, and why.
    fn stop_by(&mut self, stop: Stop) -> Came
        ensures bytes { bytes_of self.new ≡ bytes_of self.old }
        ensures reserved { self.new.reserved ≡ self.old.reserved }
    {
        self.stop = Some(stop);
        Came::Again
    }

    /// Reads once. At most `limit` bytes are reserved for the body. If an allocation fails, the
    /// bytes received before are kept, and no more are read.
    pub(crate) fn read_once<S: Read>(
        &mut self,
        stream: &mut S,
        buf: &mut [u8],
        limit: usize,
    ) -> Came
        ensures bytes { (more : List ℕ) × (bytes_of self.new ≡ bytes_of self.old ++ more)
            × Consumes (S.remaining stream.old) (S.remaining stream.new) more }
        ensures limit { self.new.reserved ≤ max self.old.reserved limit }
    {
        if self.front.bytes.len() < MOST_HEAD {
            let read = self.read_front(stream, buf);
            return self.note(read);
        }
        let Progress::Body { total } = self.progress else {
            return Came::Nothing;
        };
        if self.grow(total, limit).is_err() {
            return self.stop_by(Stop::Memory);
        }
        if self.rest.len() == self.reserved {
            return Came::NoRoom;
        }
        let read = self.read_rest(stream, buf, total);
        self.note(read)
    }

    /// Stops reading a message that took too long.
    pub(crate) fn end_late(&mut self)
        ensures bytes { bytes_of self.new ≡ bytes_of self.old }
        ensures reserved { self.new.reserved ≡ self.old.reserved }
        ensures settled { is_settled self.new ≡ true }
    {
        self.stop = Some(Stop::Late);
    }
}
