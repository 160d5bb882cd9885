//! A system with one stream in memory. The tests advance its clock, and it records the calls.
ghost use Rattle.std.specs.Prelude.{◌≤◌, length};

use std::alloc::Global;
use std::cell::Cell;
use std::io::{self, ErrorKind, Read, Write};
use std::net::{Net, OpenListener, OpenStream, SocketAddr};
use std::os::fd::{AsRawFd, RawFd};
use std::time::{Clock, Duration};

/// The result of a read or a write.
#[derive(Clone, Copy)]
pub(crate) enum Step {
    /// At most the given number of bytes.
    Bytes(usize),
    /// At most the given number of bytes, after the given number of milliseconds.
    Late(u64, usize),
    /// An error of the given kind, after the given number of milliseconds.
    Fails(u64, ErrorKind),
}

/// The state of a system with one stream: the time, the bytes of the peer, the results of the next
/// calls, and a record of the calls.
#[derive(Drop)]
pub(crate) struct Floor {
    alloc: Global,
    now: Cell<Duration>,
    text: Cell<&'static [u8]>,
    /// The number of meaningless bytes that the peer still sends after the text.
    pub(crate) behind: Cell<u64>,
    /// The results of the next reads. Every later read returns as many bytes as it can.
    pub(crate) reads: Cell<&'static [Step]>,
    /// The results of the next writes. Every later write accepts all bytes.
    pub(crate) writes: Cell<&'static [Step]>,
    /// The number of the next connection attempts that fail, and their error.
    pub(crate) faults: Cell<(u32, ErrorKind)>,
    /// The address and the time limit of the last connection attempt.
    pub(crate) connected: Cell<Option<(SocketAddr, Duration)>>,
    /// The time that it takes to connect, in milliseconds.
    pub(crate) connect_takes: Cell<u64>,
    /// The time limit of reads that was set last.
    pub(crate) read_wait: Cell<Option<Duration>>,
    /// The time limit of writes that was set last.
    pub(crate) write_wait: Cell<Option<Duration>>,
    written: Cell<Option<Vec<u8>>>,
}

impl Floor {
    /// Creates a system whose peer sends `text`, followed by `behind` meaningless bytes.
    pub(crate) fn new(alloc: Global, text: &'static [u8], behind: u64) -> Floor {
        Floor {
            alloc,
            now: Cell::new(Duration::from_secs(100)),
            text: Cell::new(text),
            behind: Cell::new(behind),
            reads: Cell::new(&[]),
            writes: Cell::new(&[]),
            faults: Cell::new((0, ErrorKind::Other)),
            connected: Cell::new(None),
            connect_takes: Cell::new(0),
            read_wait: Cell::new(None),
            write_wait: Cell::new(None),
            written: Cell::new(None),
        }
    }

    /// Advances the time by `millis` milliseconds.
    pub(crate) fn pass(&self, millis: u64) {
        self.rest(Duration::from_millis(millis));
    }

    /// Returns the time since the start, in milliseconds.
    pub(crate) fn passed(&self) -> u128 {
        self.now
            .get()
            .saturating_sub(Duration::from_secs(100))
            .as_millis()
    }

    /// Returns the bytes that were written since the last call.
    pub(crate) fn take_written(&self) -> Vec<u8> {
        self.written.take().unwrap_or(Vec::new(self.alloc))
    }

    fn rest(&self, wait: Duration) {
        self.now.set(self.now.get().saturating_add(wait));
    }

    // Performs the next of `steps`, and returns the maximum number of bytes that it allows.
    fn take_step(&self, steps: &Cell<&'static [Step]>) -> io::Result<usize> {
        let Some((step, rest)) = steps.get().split_first() else {
            return Ok(usize::MAX);
        };
        steps.set(rest);
        match *step {
            Step::Bytes(most) => Ok(most),
            Step::Late(millis, most) => {
                self.pass(millis);
                Ok(most)
            }
            Step::Fails(millis, kind) => {
                self.pass(millis);
                Err(kind.into())
            }
        }
    }

    // Reads at most `most` bytes of the text, or of the meaningless bytes after it, which leave
    // `buf` unchanged.
    fn bring(&self, buf: &mut [u8], most: usize) -> usize
        ensures { result ≤ length buf.new }
    {
        let room = buf.len().min(most);
        let text = self.text.get();
        if text.is_empty() {
            let behind = self.behind.get();
            let count = behind.min(room as u64);
            self.behind.set(behind - count);
            return count as usize;
        }
        let (front, rest) = text.split_at(text.len().min(room));
        buf[..front.len()].copy_from_slice(front);
        self.text.set(rest);
        front.len()
    }

    // Fails if this connection attempt is one of those that fail.
    fn find(&self) -> io::Result<()> {
        let (left, kind) = self.faults.get();
        self.faults.set((left.saturating_sub(1), kind));
        if left > 0 {
            return Err(kind.into());
        }
        Ok(())
    }
}

/// The system, its listener and its stream.
#[derive(Clone, Copy)]
pub(crate) struct Fake<'f>(pub(crate) &'f Floor);

/// Returns `wait` in milliseconds.
pub(crate) fn millis(wait: Option<Duration>) -> Option<u128> {
    wait.map(|wait| wait.as_millis())
}

impl AsRawFd for Fake<'_> {
    fn as_raw_fd(&self) -> RawFd {
        0
    }
}

impl Clock for Fake<'_> {
    fn monotonic(&self) -> io::Result<Duration> {
        Ok(self.0.now.get())
    }

    fn since_1970(&self) -> io::Result<Duration> {
        Ok(self.0.now.get())
    }

    fn sleep(&self, duration: Duration) {
        self.0.rest(duration);
    }
}

impl<'f> Net for Fake<'f> {
    type Stream = Fake<'f>;

    type Listener = Fake<'f>;

    // Servers are tested with a `Crowd`.
    fn bind(&self, _addr: SocketAddr) -> io::Result<Fake<'f>> {
        Err(ErrorKind::Unsupported.into())
    }

    // It has no time limit, so it must not be called.
    fn connect(&self, _addr: SocketAddr) -> io::Result<Fake<'f>> {
        Err(ErrorKind::Unsupported.into())
    }

    fn connect_timeout(&self, addr: SocketAddr, timeout: Duration) -> io::Result<Fake<'f>> {
        self.0.connected.set(Some((addr, timeout)));
        self.0.find()?;
        self.0.pass(self.0.connect_takes.get());
        Ok(*self)
    }
}

impl<'f> OpenListener for Fake<'f> {
    type Stream = Fake<'f>;

    fn accept(&self) -> io::Result<(Fake<'f>, SocketAddr)> {
        Err(ErrorKind::Unsupported.into())
    }
}

impl OpenStream for Fake<'_> {
    fn set_read_timeout(&self, dur: Option<Duration>) -> io::Result<()> {
        self.0.read_wait.set(dur);
        Ok(())
    }

    fn set_write_timeout(&self, dur: Option<Duration>) -> io::Result<()> {
        self.0.write_wait.set(dur);
        Ok(())
    }
}

impl Read for Fake<'_> {
    fn read(&mut self, buf: &mut [u8]) -> io::Result<usize> {
        let most = self.0.take_step(&self.0.reads)?;
        Ok(self.0.bring(buf, most))
    }
}

impl Write for Fake<'_> {
    fn write(&mut self, buf: &[u8]) -> io::Result<usize> {
        let most = self.0.take_step(&self.0.writes)?.min(buf.len());
        let mut written = self.0.take_written();
        written.extend_from_slice(&buf[..most])?;
        self.0.written.set(Some(written));
        Ok(most)
    }

    fn flush(&mut self) -> io::Result<()> {
        Ok(())
    }
}
