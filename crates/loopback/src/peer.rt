//! The server's side of a connection: a reader of the message and a writer of the response.
ghost use Rattle.std.specs.Prelude.{◌≡◌, ◌≤◌, ◌++◌, None, length};
ghost use Rattle.loopback.specs.Arriving.{IsPiece, bytes_of, is_complete};

use crate::arrived::{Arrived, Stop};
use crate::clock::Side;
use crate::front::Front;
use crate::timed::TimedStream;
use http_messages::{ByteSource, Progress};
use std::io::{self, Write};
use std::net::Net;
use std::time::Clock;

/// A reader of the bytes that were received from a peer before its connection was served.
#[derive(Drop)]
pub struct PeerReader {
    arrived: Arrived,
    at: usize,
    ghost within: { at ≤ length (arrived.front.bytes.items ++ arrived.rest.items) },
}

impl PeerReader {
    ghost use Rattle.std.specs.Prelude.{◌≡◌, ◌≤◌, ◌++◌, Bool, length};
    ghost use Rattle.loopback.specs.Arriving.{IsPiece, bytes_of, is_complete};

    pub(crate) fn new(arrived: Arrived) -> PeerReader
        ensures arrived { result.arrived ≡ arrived }
        ensures first { result.at ≡ 0 }
    {
        PeerReader { arrived, at: 0 }
    }

    /// Returns `true` if the message was read completely.
    pub(crate) fn is_complete(&self) -> bool
        ensures { result ≡ is_complete self.now.arrived }
    {
        match self.arrived.progress {
            Progress::Message => true,
            Progress::Head | Progress::Body { .. } | Progress::Refused => false,
        }
    }

    /// Returns the array of the first bytes, for use by another connection.
    pub(crate) fn into_front(self) -> Front {
        self.arrived.front
    }

    // Returns the bytes from `at` to the end of the array, or of the buffer if `at` is in it.
    fn piece(&self) -> &[u8]
        ensures { IsPiece (bytes_of self.now.arrived) self.now.at result.now }
    {
        let front = self.arrived.front.bytes.as_slice();
        if self.at < front.len() {
            &front[self.at..]
        } else {
            &self.arrived.rest[self.at - front.len()..]
        }
    }
}

impl ByteSource for PeerReader {
    ghost use Rattle.std.specs.Prelude.{Some, drop};
    ghost use Rattle.loopback.specs.Arriving.{bytes_of, is_cut_by};

    ghost brings = { λ r. Some (drop r.at (bytes_of r.arrived)) };

    ghost cut = { λ r. is_cut_by r.arrived.stop };

    fn bring(&mut self, buf: &mut [u8]) -> usize {
        // The number of received bytes is a `usize`, so `at + count` also fits into one.
        let _len = self.arrived.len();
        let piece = self.piece();
        let count = piece.len().min(buf.len());
        buf[..count].copy_from_slice(&piece[..count]);
        self.at += count;
        count
    }

    fn is_cut(&self) -> bool {
        matches!(self.arrived.stop, Some(Stop::Memory))
    }
}

/// A writer of the response to a peer. A write fails if it waits for 5 s, or if 10 s have passed
/// since the first write started.
#[derive(Drop)]
pub struct PeerWriter<'a, R: Net + Clock> {
    stream: TimedStream<'a, R>,
}

impl<'a, R: Net + Clock> PeerWriter<'a, R> {
    pub(crate) fn new(rt: &'a R, stream: R::Stream) -> PeerWriter<'a, R>
        ensures side { result.stream.side ≡ Side.Server }
        ensures begun { result.stream.begun ≡ None }
    {
        PeerWriter {
            stream: TimedStream::new(rt, stream, Side::Server, None),
        }
    }

    /// Ends the sending direction of the connection, so that the peer sees the end of the response.
    pub(crate) fn end(&self) {
        self.stream.end();
    }

    /// Returns the stream.
    pub(crate) fn into_stream(self) -> R::Stream {
        self.stream.into_stream()
    }
}

impl<R: Net + Clock> Write for PeerWriter<'_, R> {
    fn write(&mut self, buf: &[u8]) -> io::Result<usize> {
        self.stream.write_in_time(buf)
    }

    fn flush(&mut self) -> io::Result<()> {
        self.stream.flush()
    }
}
