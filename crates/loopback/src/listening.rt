//! A listening socket on 127.0.0.1, and its connections.
//!
//! A connection is settled if its message is complete or refused, or if no more bytes are read. A
//! connection is served only after it is settled, so no connection waits for the bytes of another.
ghost use Rattle.std.specs.Prelude.{◌≡◌, ◌+◌, ◌<◌, ◌≤◌, IfOk, true, position, vec_len};
ghost use Rattle.std.specs.List.{list_any};
ghost use Rattle.loopback.specs.Arriving.{is_settled};
ghost use Rattle.std.specs.IoError.{error_kind};
ghost use Rattle.loopback.specs.Faults.{fault_of};

use crate::arrived::Arrived;
use crate::drain::Drain;
use crate::peer::{PeerReader, PeerWriter};
use crate::pending::Pending;
use crate::slots::{MOST_PENDING, Slots};
use crate::watch::{Watch, Watches};
use server::{Connections, NextFault, Served};
use std::alloc::AllocGlobal;
use std::io::{self, ErrorKind};
use std::net::{Ipv4Addr, Net, OpenListener, OpenStream, SocketAddr, SocketAddrV4};
use std::os::fd::AsRawFd;
use std::time::{Clock, Duration, Instant};

/// The number of failed rounds in a row after which `next_settled` fails.
const MOST_TRIES: u32 = 50;

/// The pause after a failed round, in milliseconds.
const PAUSE: u64 = 100;

/// The maximum wait of a round, in milliseconds. All connections are read at this interval, even if
/// they weren't reported, so a missing report delays a connection by at most this time.
const ROUND: u64 = 250;

/// The maximum time for draining connections after the last one was served, in milliseconds.
const MOST_LAST: u64 = 1000;

/// The maximum size of one read, in bytes.
const READ_BYTES: usize = 65_536;

/// The token of the listening socket. Connections have larger tokens.
const LISTENER: usize = 0;

/// The connections to a port of 127.0.0.1, which are served one at a time.
///
/// The main theorem (`serve_all` of `server`) also holds for these connections, but doesn't name
/// the exchanges that took place. It only states that the store contains their effects.
pub struct Loopback<'a, R: Net + Clock + AllocGlobal + Watches> {
    rt: &'a R,
    listener: R::Listener,
    port: u16,
    watch: R::Watch,
    slots: Slots<R::Stream>,
    /// The buffer for all reads.
    buf: Vec<u8>,
    /// The token of the latest connection.
    token: usize,
    /// The time when all connections were last read.
    swept: Instant,
    /// The maximum wait of the next round.
    wait: Duration,
    /// The number of connections that will still be served, if it is known.
    turns: Option<u32>,
}

impl<'a, R: Net + Clock + AllocGlobal + Watches> Loopback<'a, R> {
    /// Listens on `port`, or on a free port if it is 0.
    ///
    /// # Errors
    ///
    /// Returns the error of the system if `port` isn't available or the socket can't be watched, or
    /// if an allocation fails. No other port is tried. Only tests show that exactly `port` is
    /// requested, and only once.
    pub fn listen(rt: &'a R, port: u16) -> io::Result<Loopback<'a, R>>
        ensures { IfOk result (λ l. l.port ≡ port) }
    {
        let listener = rt.bind(SocketAddr::V4(SocketAddrV4::new(Ipv4Addr::LOCALHOST, port)))?;
        listener.set_nonblocking(true)?;
        let mut watch = rt.new_watch()?;
        watch.add(listener.as_raw_fd(), LISTENER)?;
        Ok(Loopback {
            rt,
            listener,
            port,
            watch,
            slots: Slots::reserve(rt.alloc())?,
            buf: vec![in rt.alloc(); 0; READ_BYTES]?,
            token: LISTENER,
            swept: Instant::now(rt)?,
            wait: Duration::ZERO,
            turns: None,
        })
    }

    /// Returns the port that was passed to `listen`.
    pub fn port(&self) -> u16
        ensures { result ≡ self.now.port }
    {
        self.port
    }

    /// Returns the address of the listening socket, with the actual port if `listen` was called
    /// with port 0.
    ///
    /// # Errors
    ///
    /// Returns the error of the system.
    pub fn local_addr(&self) -> io::Result<SocketAddr> {
        self.listener.local_addr()
    }

    /// Sets the number of connections that will be served. After the last one, the remaining drains
    /// get at most one second.
    pub fn end_after(&mut self, turns: u32)
        ensures { self.new.port ≡ self.old.port }
    {
        self.turns = Some(turns);
    }

    // Accepts a connection, and reads its available bytes. Returns `false` if all slots are used
    // and a settled connection has to be served first.
    fn accept_one(&mut self) -> io::Result<bool> {
        let Some(room) = self.slots.find_room() else {
            return Ok(false);
        };
        let (stream, _) = self.listener.accept()?;
        // The time limit of its message starts now, not when the wait for a connection started.
        let now = Instant::now(self.rt)?;
        stream.set_nonblocking(true)?;
        self.slots.make(room);
        let front = self.slots.take_front(self.rt.alloc())?;
        self.read_others(now);
        self.token = self.token.wrapping_add(1).max(1);
        let arrived = Arrived::new(self.rt.alloc(), front);
        let pending = Pending::new(stream, arrived, self.token, now);
        let fd = pending.stream.as_raw_fd();
        if self.slots.add_read(pending, &mut self.buf, now) {
            return Ok(true);
        }
        // From now on its bytes are reported, including those that arrived after the read.
        match self.watch.add(fd, self.token) {
            Ok(()) => Ok(true),
            Err(error) => {
                self.slots.drop_last();
                Err(error)
            }
        }
    }

    // Reads the bytes that arrived on the other connections before a connection was accepted. A
    // message that was complete before this connection was opened is therefore served first. If the
    // system can't report these bytes, the next round reads them.
    fn read_others(&mut self, now: Instant)
        ensures { vec_len self.new.slots.pending + vec_len self.new.slots.drains
            ≤ vec_len self.old.slots.pending + vec_len self.old.slots.drains }
    {
        if !self.slots.has_open() {
            return;
        }
        if self.watch.wait(Duration::ZERO).is_err() {
            return;
        }
        self.slots
            .read_reported(&self.watch, false, &mut self.buf, now);
    }

    // Accepts the connections that arrived, as long as there are slots for them. Returns how long
    // the next round may wait. This is 0 if more connections may have arrived, because the system
    // need not report them again.
    fn accept_all(&mut self) -> io::Result<Duration> {
        for _ in 0..MOST_PENDING {
            match self.accept_one() {
                Ok(true) => {}
                Ok(false) => break,
                Err(error) if error.kind() == ErrorKind::WouldBlock => {
                    return Ok(Duration::from_millis(ROUND));
                }
                Err(error) => return Err(error),
            }
        }
        Ok(Duration::ZERO)
    }

    // Returns `true` if it is time to read all connections, even those that weren't reported, and
    // records the time if it is.
    fn sweeps(&mut self, now: Instant) -> bool {
        if now.duration_since(self.swept) < Duration::from_millis(ROUND) {
            return false;
        }
        self.swept = now;
        true
    }

    // Performs a round: waits for at most `wait`, reads the available bytes, discards those of
    // drained connections, accepts the connections that arrived, and ends the messages that took
    // too long. Determines how long the next round may wait, which is 0 after an error.
    fn go_round(&mut self) -> io::Result<()> {
        let wait = self.wait;
        self.wait = Duration::ZERO;
        self.watch.wait(wait)?;
        let now = Instant::now(self.rt)?;
        let is_all = self.sweeps(now);
        self.slots
            .read_reported(&self.watch, is_all, &mut self.buf, now);
        self.slots
            .drop_reported(&self.watch, is_all, &mut self.buf, now);
        // Late messages end even if no connection can be accepted.
        let next = self.accept_all();
        let now = Instant::now(self.rt)?;
        self.slots.end_late(&mut self.buf, now);
        self.wait = next?;
        Ok(())
    }

    // Removes and returns the connection at `at`, which is the first settled one. If its socket
    // can't be switched back to blocking mode, the response may fail.
    fn take(&mut self, at: usize) -> (PeerReader, PeerWriter<'a, R>)
        requires { position (λ p. is_settled p.arrived) self.old.slots.pending.items ≡ Some at }
        ensures settled { is_settled result.0.arrived ≡ true }
        ensures whole { result.0.at ≡ 0 }
        ensures begun { result.1.stream.begun ≡ None }
        ensures waits { R.Watch.waits self.new.watch ≡ R.Watch.waits self.old.watch }
    {
        let pending = self.slots.take(at);
        let _ = pending.stream.set_nonblocking(false);
        let replies = PeerWriter::new(self.rt, pending.stream);
        (PeerReader::new(pending.arrived), replies)
    }

    // Performs rounds until a connection is settled, and returns it.
    fn wait_for_settled(&mut self) -> Result<(PeerReader, PeerWriter<'a, R>), NextFault>
        ensures settled { IfOk result (λ ends. is_settled ends.0.arrived ≡ true) }
        ensures whole { IfOk result (λ ends. ends.0.at ≡ 0) }
        ensures begun { IfOk result (λ ends. ends.1.stream.begun ≡ None) }
    {
        let mut faults = 0;
        for _ in 0..u64::MAX {
            let gone = self.go_round();
            if let Some(at) = self.slots.find_settled() {
                return Ok(self.take(at));
            }
            match gone {
                Ok(()) => faults = 0,
                Err(error) => {
                    faults += 1;
                    if faults >= MOST_TRIES {
                        return Err(fault_of(error));
                    }
                    self.rt.sleep(Duration::from_millis(PAUSE));
                }
            }
        }
        Err(NextFault::Device)
    }

    /// Returns the first settled connection. Waits only if no connection is settled.
    ///
    /// # Errors
    ///
    /// Fails if 50 rounds in a row fail. The error of the last round determines the fault:
    ///
    /// - `Memory`: an allocation failed.
    /// - `Device`: the system reported any other error.
    pub fn next_settled(&mut self) -> Result<(PeerReader, PeerWriter<'a, R>), NextFault>
        ensures settled { IfOk result (λ ends. is_settled ends.0.arrived ≡ true) }
        ensures whole { IfOk result (λ ends. ends.0.at ≡ 0) }
        ensures begun { IfOk result (λ ends. ends.1.stream.begun ≡ None) }
        ensures prompt { list_any (λ p. is_settled p.arrived) self.old.slots.pending.items ≡ true
            → R.Watch.waits self.new.watch ≡ R.Watch.waits self.old.watch }
    {
        match self.slots.find_settled() {
            Some(at) => Ok(self.take(at)),
            None => self.wait_for_settled(),
        }
    }

    // Drains the connection, unless its message was read completely.
    fn drain(&mut self, is_complete: bool, stream: R::Stream)
        ensures { is_complete ≡ true → self.new.slots ≡ self.old.slots }
    {
        if is_complete {
            return;
        }
        // If this fails, the connection is closed, and the peer may lose the response.
        let _ = self.start_drain(stream);
    }

    // Starts to drain a connection, or closes it if no slot can be freed for it.
    fn start_drain(&mut self, stream: R::Stream) -> io::Result<()> {
        let now = Instant::now(self.rt)?;
        stream.set_nonblocking(true)?;
        let Some(room) = self.slots.find_room() else {
            return Ok(());
        };
        self.token = self.token.wrapping_add(1).max(1);
        // The socket may still be watched as a pending connection.
        self.watch.remove(stream.as_raw_fd());
        self.watch.add(stream.as_raw_fd(), self.token)?;
        self.slots.make(room);
        self.slots.add_drain(Drain::new(stream, self.token, now));
        Ok(())
    }

    // Counts a connection that was served. After the last one, gives the remaining drains their
    // time.
    fn end_turn(&mut self) {
        let Some(turns) = self.turns else {
            return;
        };
        self.turns = Some(turns.saturating_sub(1));
        if turns <= 1 {
            let _ = self.finish_drains();
        }
    }

    // Drains connections until all drains have ended, for at most one second.
    fn finish_drains(&mut self) -> io::Result<()> {
        let begun = Instant::now(self.rt)?;
        let mut now = begun;
        for _ in 0..u64::MAX {
            self.slots
                .drop_reported(&self.watch, true, &mut self.buf, now);
            let left = Duration::from_millis(MOST_LAST).saturating_sub(now.duration_since(begun));
            if left.is_zero() || !self.slots.has_drains() {
                return Ok(());
            }
            self.watch.wait(left.min(Duration::from_millis(ROUND)))?;
            now = Instant::now(self.rt)?;
        }
        Ok(())
    }
}

// With a derived `drop`, each crate that drops a `Loopback` would prove the drops of all its parts.
impl<R: Net + Clock + AllocGlobal + Watches> Drop for Loopback<'_, R> {
    fn drop(self) {
        let Loopback {
            rt: _,
            listener: _,
            port: _,
            watch: _,
            slots: _,
            buf: _,
            token: _,
            swept: _,
            wait: _,
            turns: _,
        } = self;
    }
}

// Returns the fault to report for `error`.
fn fault_of(error: io::Error) -> NextFault
    ensures { result ≡ fault_of (error_kind error) }
{
    match error.kind() {
        ErrorKind::OutOfMemory => NextFault::Memory,
        _ => NextFault::Device,
    }
}

impl<'a, R: Net + Clock + AllocGlobal + Watches> Connections for Loopback<'a, R> {
    ghost use Rattle.std.specs.Prelude.{None, ⊤};

    type In = PeerReader;

    type Out = PeerWriter<'a, R>;

    ghost queue = { λ _. None };

    ghost awaits = { λ _. ⊤ };

    ghost refuses = { λ _ _. ⊤ };

    fn next(&mut self) -> Result<(PeerReader, PeerWriter<'a, R>), NextFault> {
        self.next_settled()
    }

    // The peer sees the end of its response before more of its bytes are read.
    fn back(&mut self, incoming: PeerReader, writer: PeerWriter<'a, R>, _served: Served) {
        writer.end();
        let is_complete = incoming.is_complete();
        self.slots.keep_front(incoming.into_front());
        self.drain(is_complete, writer.into_stream());
        self.end_turn();
    }
}
