//! A stream with time limits for its reads and writes.
ghost use Rattle.std.specs.Prelude.{◌≡◌, ◌≢◌, IfErr, IfOk, IfSome, IsSome};
ghost use Rattle.std.specs.Io.{ReadsAtMost, WritesAtMost};
ghost use Rattle.std.specs.IoError.{error_kind};

use crate::clock::{Side, wait_at};
use std::io::{self, ErrorKind, Read, Write};
use std::net::{Net, OpenStream, Shutdown};
use std::time::{Clock, Duration, Instant};

/// A connection's stream on the side `side`. A read or a write fails if it waits longer than a
/// single one may on this side, or if the time for the whole message or response is over. That time
/// starts at `begun`, or at the first read or write if `begun` is `None`.
///
/// Only tests show that the system gets the time that `wait` returns, and that nothing is read or
/// written if no time is left.
#[derive(Drop)]
pub(crate) struct TimedStream<'a, R: Net + Clock> {
    rt: &'a R,
    stream: R::Stream,
    side: Side,
    begun: Option<Instant>,
}

impl<'a, R: Net + Clock> TimedStream<'a, R> {
    pub(crate) fn new(
        rt: &'a R,
        stream: R::Stream,
        side: Side,
        begun: Option<Instant>,
    ) -> TimedStream<'a, R>
        ensures side { result.side ≡ side }
        ensures begun { result.begun ≡ begun }
    {
        TimedStream {
            rt,
            stream,
            side,
            begun,
        }
    }

    /// Ends the sending direction, so that the peer sees the end of the bytes.
    pub(crate) fn end(&self) {
        let _ = self.stream.shutdown(Shutdown::Write);
    }

    /// Returns the stream.
    pub(crate) fn into_stream(self) -> R::Stream {
        self.stream
    }

    // Returns how long a read or a write that starts now may wait. Starts the time limit, unless it
    // was started before.
    fn wait(&mut self) -> io::Result<Duration>
        ensures set { IfOk result (λ _. IsSome self.new.begun) }
        ensures begun { IfSome self.old.begun (λ begun. self.new.begun ≡ Some begun) }
        ensures side { self.new.side ≡ self.old.side }
    {
        let now = Instant::now(self.rt)?;
        let begun = match self.begun {
            Some(begun) => begun,
            None => now,
        };
        self.begun = Some(begun);
        wait_at(self.side, begun, now)
    }

    // Reads once, with the time that is left.
    fn read_once(&mut self, buf: &mut [u8]) -> io::Result<usize>
        ensures count { ReadsAtMost result buf.new }
        ensures begun { IfSome self.old.begun (λ begun. self.new.begun ≡ Some begun) }
        ensures side { self.new.side ≡ self.old.side }
    {
        let wait = self.wait()?;
        self.stream.set_read_timeout(Some(wait))?;
        self.stream.read(buf)
    }

    /// Reads within the time limits. A read that a signal interrupts is repeated.
    pub(crate) fn read_in_time(&mut self, buf: &mut [u8]) -> io::Result<usize>
        ensures count { ReadsAtMost result buf.new }
        ensures begun { IfSome self.old.begun (λ begun. self.new.begun ≡ Some begun) }
        ensures side { self.new.side ≡ self.old.side }
        ensures retried { IfErr result (λ error. error_kind error ≢ ErrorKind.Interrupted) }
    {
        for _ in 0..u64::MAX {
            match self.read_once(buf) {
                Err(error) if error.kind() == ErrorKind::Interrupted => {}
                read => return read,
            }
        }
        Err(ErrorKind::TimedOut.into())
    }

    // Writes once, with the time that is left.
    fn write_once(&mut self, buf: &[u8]) -> io::Result<usize>
        ensures count { WritesAtMost result buf.now }
        ensures begun { IfSome self.old.begun (λ begun. self.new.begun ≡ Some begun) }
        ensures side { self.new.side ≡ self.old.side }
    {
        let wait = self.wait()?;
        self.stream.set_write_timeout(Some(wait))?;
        self.stream.write(buf)
    }

    /// Writes within the time limits. A write that a signal interrupts is repeated.
    pub(crate) fn write_in_time(&mut self, buf: &[u8]) -> io::Result<usize>
        ensures count { WritesAtMost result buf.now }
        ensures begun { IfSome self.old.begun (λ begun. self.new.begun ≡ Some begun) }
        ensures side { self.new.side ≡ self.old.side }
        ensures retried { IfErr result (λ error. error_kind error ≢ ErrorKind.Interrupted) }
    {
        for _ in 0..u64::MAX {
            match self.write_once(buf) {
                Err(error) if error.kind() == ErrorKind::Interrupted => {}
                written => return written,
            }
        }
        Err(ErrorKind::TimedOut.into())
    }
}

impl<R: Net + Clock> Read for TimedStream<'_, R> {
    fn read(&mut self, buf: &mut [u8]) -> io::Result<usize> {
        self.read_in_time(buf)
    }
}

impl<R: Net + Clock> Write for TimedStream<'_, R> {
    fn write(&mut self, buf: &[u8]) -> io::Result<usize> {
        self.write_in_time(buf)
    }

    fn flush(&mut self) -> io::Result<()> {
        self.stream.flush()
    }
}
