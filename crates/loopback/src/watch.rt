//! Waits until sockets are ready.

use mio::unix::SourceFd;
use mio::{Events, Interest, Poll, Token};
use std::alloc::{AllocGlobal, Global};
use std::io;
use std::net::Net;
use std::os::fd::RawFd;
use std::time::Duration;

/// The maximum number of reports that one wait returns.
const MOST_EVENTS: usize = 256;

/// A set of sockets, which can wait until one of them is ready. A report may be wrong. After a
/// report, a socket is reported again only after a call on it has returned `WouldBlock`.
pub trait Watch {
    ghost use Rattle.std.specs.Prelude.{◌≡◌, ℕ};

    /// A number that only `wait` may change. With it a contract states that a call doesn't wait.
    ghost waits: { Self → ℕ };

    /// Starts to watch the socket `fd`, which is reported as `token`.
    ///
    /// # Errors
    ///
    /// Returns the error of the system.
    fn add(&mut self, fd: RawFd, token: usize) -> io::Result<()>
        ensures waits { waits self.new ≡ waits self.old };

    /// Stops watching the socket `fd`.
    fn remove(&mut self, fd: RawFd)
        ensures waits { waits self.new ≡ waits self.old };

    /// Waits until a socket is ready, for at most `most`.
    ///
    /// # Errors
    ///
    /// Returns the error of the system.
    fn wait(&mut self, most: Duration) -> io::Result<()>;

    /// Returns `true` if the last wait reported the socket with the token `token`.
    fn is_reported(&self, token: usize) -> bool;
}

/// A system that can wait for its sockets.
pub trait Watches {
    /// The type of a watch on this system.
    type Watch: Watch + Drop;

    /// Creates a watch without sockets.
    ///
    /// # Errors
    ///
    /// Returns the error of the system, or an error if an allocation fails.
    fn new_watch(&self) -> io::Result<Self::Watch>;
}

/// A watch that uses the system's `epoll`.
#[derive(Drop)]
pub struct Epoll {
    poll: Poll,
    events: Events,
}

impl Epoll {
    fn new<R: Net>(net: &R, alloc: Global) -> io::Result<Epoll> {
        Ok(Epoll {
            poll: Poll::new(net)?,
            events: Events::with_capacity(alloc, MOST_EVENTS)?,
        })
    }
}

impl Watch for Epoll {
    ghost waits = { λ _. 0 };

    fn add(&mut self, fd: RawFd, token: usize) -> io::Result<()> {
        self.poll
            .registry()
            .register(&mut SourceFd(&fd), Token(token), Interest::READABLE)
    }

    fn remove(&mut self, fd: RawFd) {
        let _ = self.poll.registry().deregister(&mut SourceFd(&fd));
    }

    fn wait(&mut self, most: Duration) -> io::Result<()> {
        self.poll.poll(&mut self.events, Some(most))
    }

    fn is_reported(&self, token: usize) -> bool {
        self.events
            .iter()
            .any(|event| event.token() == Token(token))
    }
}

impl Watches for HostRuntime {
    type Watch = Epoll;

    fn new_watch(&self) -> io::Result<Epoll> {
        Epoll::new(self, self.alloc())
    }
}
