//! Sends messages to a port of 127.0.0.1.
ghost use Rattle.std.specs.Prelude.{◌≡◌, ◌≢◌, ◌+◌, ◌≤◌, [], IfOk, OnOk, min};
ghost use Rattle.loopback.specs.Asking.{came_of};
ghost use Rattle.loopback.specs.Waits.{paused};

use crate::asking::send_and_read;
use crate::clock::{Side, pause_after};
use crate::timed::TimedStream;
use feeding::Exchange;
use std::alloc::{AllocError, Global};
use std::io;
use std::net::{Ipv4Addr, Net, SocketAddr, SocketAddrV4};
use std::time::{Clock, Instant};
use text_io::ReadFault;

/// A port of 127.0.0.1, with the last message that was sent to it and the number of times that this
/// message was sent again.
#[derive(Drop)]
pub struct Port<'a, R: Net + Clock> {
    rt: &'a R,
    alloc: Global,
    port: u16,
    last: Vec<u8>,
    sent: u32,
}

impl<'a, R: Net + Clock> Port<'a, R> {
    /// Creates a port to which no message was sent yet.
    pub fn new(rt: &'a R, alloc: Global, port: u16) -> Port<'a, R>
        ensures port { result.port ≡ port }
        ensures none { result.last.items ≡ [] }
        ensures first { result.sent ≡ 0 }
        // Ten tries of a message take at least a minute.
        ensures minute { 60_000_000_000 ≤ paused 9 }
    {
        Port {
            rt,
            alloc,
            port,
            last: Vec::new(alloc),
            sent: 0,
        }
    }

    // Pauses if `message` is the same as the last message. The pause is longer every time, up to
    // 16 s. Only tests show how long it sleeps.
    fn wait_for(&mut self, message: &[u8]) -> Result<(), AllocError>
        ensures last { OnOk result (self.new.last.items ≡ message.now) }
        ensures first { self.old.last.items ≢ message.now → OnOk result (self.new.sent ≡ 0) }
        ensures again { self.old.last.items ≡ message.now
            → self.new.sent ≡ min (self.old.sent + 1) u32.MAX }
        ensures port { self.new.port ≡ self.old.port }
    {
        if self.last.as_slice() == message {
            self.rt.sleep(pause_after(self.sent));
            self.sent = self.sent.saturating_add(1);
        } else {
            self.last = Vec::from_slice(self.alloc, message)?;
            self.sent = 0;
        }
        Ok(())
    }

    // Opens a connection to the port, with the time limits of a driver. Only tests show that its
    // reads and writes wait at most 60 s.
    fn connect(&self) -> io::Result<TimedStream<'a, R>>
        ensures { IfOk result (λ peer. peer.side ≡ Side.Machine) }
    {
        let begun = Instant::now(self.rt)?;
        let place = SocketAddr::V4(SocketAddrV4::new(Ipv4Addr::LOCALHOST, self.port));
        let stream = self.rt.connect_timeout(place, Side::Machine.most_time())?;
        Ok(TimedStream::new(self.rt, stream, Side::Machine, Some(begun)))
    }

    // Opens a connection, sends `message`, and reads the whole response.
    fn ask(&self, message: &[u8]) -> Result<Option<Vec<u8>>, ReadFault> {
        let mut peer = self.connect()?;
        send_and_read(self.alloc, &mut peer, message)
    }
}

// Returns the result of an exchange: `None` if it failed, or an error if an allocation failed.
fn came_of(asked: Result<Option<Vec<u8>>, ReadFault>) -> Result<Option<Vec<u8>>, AllocError>
    ensures { result ≡ came_of asked }
{
    match asked {
        Ok(came) => Ok(came),
        Err(ReadFault::Failed) => Ok(None),
        Err(ReadFault::Memory) => Err(AllocError),
    }
}

/// An exchange returns `None` if the connection can't be opened, a write or a read fails, or the
/// response is too long.
impl<R: Net + Clock> Exchange for Port<'_, R> {
    ghost use Rattle.std.specs.Prelude.{None};

    ghost log = { λ _. None };

    fn exchange(&mut self, message: &[u8]) -> Result<Option<Vec<u8>>, AllocError> {
        self.wait_for(message)?;
        came_of(self.ask(message))
    }
}
