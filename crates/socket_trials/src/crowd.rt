//! A system with several peers of a server, in memory. Their bytes arrive at given times, and the
//! clock advances when the server waits. The system allocates nothing, so no failed allocation
//! changes what it does.
use loopback::{Watch, Watches};
use std::alloc::{Alloc, Global};
use std::cell::Cell;
use std::io::{self, ErrorKind, Read, Write};
use std::net::{Ipv4Addr, Net, OpenListener, OpenStream, Shutdown, SocketAddr, SocketAddrV4};
use std::os::fd::{AsRawFd, RawFd};
use std::time::{Clock, Duration};

/// A piece of the data that a peer sends.
#[derive(Clone, Copy)]
pub(crate) enum Piece {
    /// The given bytes.
    Text(&'static [u8]),
    /// The given number of meaningless bytes.
    Many(usize),
    /// The end of the connection.
    End,
    /// A read that fails with an error of the given kind.
    Fails(ErrorKind),
}

/// Peers of one kind: their number, the time when they connect, and the pieces that each of them
/// sends, with the time of each piece. Times are in milliseconds.
#[derive(Clone, Copy)]
pub(crate) struct Peer {
    pub(crate) times: u32,
    pub(crate) at: u64,
    pub(crate) pieces: &'static [(u64, Piece)],
}

/// A list of peers from rows, each with the number of peers, the time and the pieces.
macro_rules! crowd_of {
    ($(($times:expr, $at:expr, $pieces:expr)),* $(,)?) => {
        &[$(Peer {
            times: $times,
            at: $at,
            pieces: $pieces,
        }),*]
    };
}

pub(crate) use crowd_of;

/// A writer that keeps at most 512 bytes.
#[derive(Clone, Copy)]
pub(crate) struct Written {
    bytes: [u8; 512],
    count: usize,
}

impl Written {
    pub(crate) fn new() -> Written {
        Written {
            bytes: [0; 512],
            count: 0,
        }
    }

    /// Returns the bytes that were written.
    pub(crate) fn as_slice(&self) -> &[u8] {
        self.bytes.get(..self.count).unwrap_or(&[])
    }
}

impl Write for Written {
    fn write(&mut self, buf: &[u8]) -> io::Result<usize> {
        let Some(room) = self.bytes.get_mut(self.count..) else {
            return Ok(0);
        };
        let count = buf.len().min(room.len());
        room[..count].copy_from_slice(&buf[..count]);
        self.count += count;
        Ok(count)
    }

    fn flush(&mut self) -> io::Result<()> {
        Ok(())
    }
}

/// The sockets that a wait reports.
#[derive(Clone, Copy)]
pub(crate) enum Reports {
    /// All sockets, even those without bytes.
    All,
    /// No sockets.
    Nothing,
    /// Every second socket.
    Odd,
}

/// The state of the system: the peers that haven't connected yet, the time, and the results of the
/// server's calls.
#[derive(Drop)]
pub(crate) struct Crowd {
    alloc: Global,
    now: Cell<u64>,
    peers: Cell<&'static [Peer]>,
    // The number of peers of the first kind that have connected.
    of_kind: Cell<u32>,
    /// The number of peers whose connections were accepted.
    pub(crate) came: Cell<usize>,
    /// The sockets that a wait reports.
    pub(crate) reports: Cell<Reports>,
    /// The number of the next calls of `accept` that fail, and their error.
    pub(crate) faults: Cell<(u32, ErrorKind)>,
    /// The time that it takes to accept a connection, in milliseconds.
    pub(crate) accept_takes: Cell<u64>,
    /// The error of `bind`, if it fails.
    pub(crate) taken: Cell<Option<ErrorKind>>,
    /// The address of the last call of `bind`, and the number of calls.
    pub(crate) bound: Cell<(Option<SocketAddr>, u32)>,
    /// The time limit of writes that was set last.
    pub(crate) write_wait: Cell<Option<Duration>>,
    /// The number of the next writes that fail, the time that each of them takes in milliseconds,
    /// and their error.
    pub(crate) write_faults: Cell<(u32, u64, ErrorKind)>,
    /// The number of bytes that were read from the first peer.
    pub(crate) first_read: Cell<usize>,
    /// The time when the first peer got the end of its response.
    pub(crate) first_ended: Cell<Option<u64>>,
    written: Cell<Written>,
}

impl Crowd {
    /// Creates a system with the peers `peers`, at time 0.
    pub(crate) fn new(alloc: Global, peers: &'static [Peer]) -> Crowd {
        Crowd {
            alloc,
            now: Cell::new(0),
            peers: Cell::new(peers),
            of_kind: Cell::new(0),
            came: Cell::new(0),
            reports: Cell::new(Reports::All),
            faults: Cell::new((0, ErrorKind::Other)),
            accept_takes: Cell::new(0),
            taken: Cell::new(None),
            bound: Cell::new((None, 0)),
            write_wait: Cell::new(None),
            write_faults: Cell::new((0, 0, ErrorKind::Other)),
            first_read: Cell::new(0),
            first_ended: Cell::new(None),
            written: Cell::new(Written::new()),
        }
    }

    /// Returns the time, in milliseconds.
    pub(crate) fn now(&self) -> u64 {
        self.now.get()
    }

    /// Advances the time by `millis` milliseconds.
    pub(crate) fn pass(&self, millis: u64) {
        self.now.set(self.now.get().saturating_add(millis));
    }

    /// Returns the bytes that were written since the last call.
    pub(crate) fn take_written(&self) -> Written {
        self.written.replace(Written::new())
    }

    // Fails if this call of `accept` is one of those that fail.
    fn find(&self) -> io::Result<()> {
        let (left, kind) = self.faults.get();
        self.faults.set((left.saturating_sub(1), kind));
        if left > 0 {
            return Err(kind.into());
        }
        Ok(())
    }
}

/// The system of a `Crowd`, and its listener.
#[derive(Clone, Copy)]
pub(crate) struct Hall<'c>(pub(crate) &'c Crowd);

/// The stream of a peer.
#[derive(Drop)]
pub(crate) struct Taken<'c> {
    crowd: &'c Crowd,
    is_first: bool,
    pieces: &'static [(u64, Piece)],
    at: usize,
}

/// A watch for the peers of a `Crowd`.
#[derive(Drop)]
pub(crate) struct Doorman<'c> {
    crowd: &'c Crowd,
}

impl AsRawFd for Hall<'_> {
    fn as_raw_fd(&self) -> RawFd {
        0
    }
}

impl AsRawFd for Taken<'_> {
    fn as_raw_fd(&self) -> RawFd {
        0
    }
}

impl Clock for Hall<'_> {
    fn monotonic(&self) -> io::Result<Duration> {
        Ok(Duration::from_millis(self.0.now()))
    }

    fn since_1970(&self) -> io::Result<Duration> {
        Ok(Duration::from_millis(self.0.now()))
    }

    fn sleep(&self, duration: Duration) {
        self.0.pass(duration.as_millis().min(1_000_000) as u64);
    }
}

impl Alloc for Hall<'_> {
    type A = Global;

    fn alloc(&self) -> Global {
        self.0.alloc
    }
}

impl<'c> Net for Hall<'c> {
    type Stream = Taken<'c>;

    type Listener = Hall<'c>;

    fn bind(&self, addr: SocketAddr) -> io::Result<Hall<'c>> {
        let (_, often) = self.0.bound.get();
        self.0.bound.set((Some(addr), often.saturating_add(1)));
        match self.0.taken.get() {
            Some(kind) => Err(kind.into()),
            None => Ok(*self),
        }
    }

    fn connect(&self, _addr: SocketAddr) -> io::Result<Taken<'c>> {
        Err(ErrorKind::Unsupported.into())
    }
}

impl<'c> OpenListener for Hall<'c> {
    type Stream = Taken<'c>;

    fn accept(&self) -> io::Result<(Taken<'c>, SocketAddr)> {
        self.0.find()?;
        let crowd = self.0;
        match crowd.peers.get().split_first() {
            Some((peer, rest)) if peer.at <= crowd.now() => {
                let came = crowd.came.get();
                crowd.of_kind.set(crowd.of_kind.get().saturating_add(1));
                if crowd.of_kind.get() >= peer.times {
                    crowd.peers.set(rest);
                    crowd.of_kind.set(0);
                }
                crowd.came.set(came.saturating_add(1));
                crowd.pass(crowd.accept_takes.get());
                let taken = Taken {
                    crowd,
                    is_first: came == 0,
                    pieces: peer.pieces,
                    at: 0,
                };
                let place = SocketAddr::V4(SocketAddrV4::new(Ipv4Addr::LOCALHOST, 1));
                Ok((taken, place))
            }
            _ => Err(ErrorKind::WouldBlock.into()),
        }
    }

    fn set_nonblocking(&self, _nonblocking: bool) -> io::Result<()> {
        Ok(())
    }
}

impl OpenStream for Taken<'_> {
    fn shutdown(&self, how: Shutdown) -> io::Result<()> {
        if self.is_first && how == Shutdown::Write {
            self.crowd.first_ended.set(Some(self.crowd.now()));
        }
        Ok(())
    }

    fn set_nonblocking(&self, _nonblocking: bool) -> io::Result<()> {
        Ok(())
    }

    fn set_write_timeout(&self, dur: Option<Duration>) -> io::Result<()> {
        self.crowd.write_wait.set(dur);
        Ok(())
    }
}

impl Taken<'_> {
    // Removes `count` bytes from the first piece, which has `size` bytes.
    fn advance(&mut self, count: usize, size: usize) {
        self.at = self.at.saturating_add(count);
        if self.at >= size {
            self.at = 0;
            self.pieces = self.pieces.get(1..).unwrap_or(&[]);
        }
    }
}

impl Read for Taken<'_> {
    fn read(&mut self, buf: &mut [u8]) -> io::Result<usize> {
        let piece = match self.pieces.first() {
            Some((at, piece)) if *at <= self.crowd.now() => *piece,
            _ => return Err(ErrorKind::WouldBlock.into()),
        };
        let count = match piece {
            Piece::Text(text) => {
                let left = text.get(self.at..).unwrap_or(&[]);
                let count = left.len().min(buf.len());
                buf[..count].copy_from_slice(&left[..count]);
                self.advance(count, text.len());
                count
            }
            Piece::Many(size) => {
                let count = size.saturating_sub(self.at).min(buf.len());
                self.advance(count, size);
                count
            }
            Piece::End => 0,
            Piece::Fails(kind) => {
                self.advance(1, 1);
                return Err(kind.into());
            }
        };
        if self.is_first {
            let read = &self.crowd.first_read;
            read.set(read.get().saturating_add(count));
        }
        Ok(count)
    }
}

impl Write for Taken<'_> {
    fn write(&mut self, buf: &[u8]) -> io::Result<usize> {
        let (left, millis, kind) = self.crowd.write_faults.get();
        if left > 0 {
            self.crowd.pass(millis);
            self.crowd.write_faults.set((left - 1, millis, kind));
            return Err(kind.into());
        }
        let mut written = self.crowd.written.get();
        let count = written.write(buf)?;
        self.crowd.written.set(written);
        Ok(count)
    }

    fn flush(&mut self) -> io::Result<()> {
        Ok(())
    }
}

impl Watch for Doorman<'_> {
    ghost waits = { λ _. 0 };

    fn add(&mut self, _fd: RawFd, _token: usize) -> io::Result<()> {
        Ok(())
    }

    fn remove(&mut self, _fd: RawFd) {}

    fn wait(&mut self, most: Duration) -> io::Result<()> {
        self.crowd.pass(most.as_millis().min(1_000_000) as u64);
        Ok(())
    }

    fn is_reported(&self, token: usize) -> bool {
        match self.crowd.reports.get() {
            Reports::All => true,
            Reports::Nothing => false,
            Reports::Odd => token % 2 == 1,
        }
    }
}

impl<'c> Watches for Hall<'c> {
    type Watch = Doorman<'c>;

    fn new_watch(&self) -> io::Result<Doorman<'c>> {
        Ok(Doorman { crowd: self.0 })
    }
}
