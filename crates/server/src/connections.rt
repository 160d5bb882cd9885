//! The interface of a source of connections.
ghost use Rattle.std.specs.Prelude.{◌≡◌};
ghost use Rattle.server.specs.declared.connections.NextFault.TheVariants.{Memory};

use crate::served::Served;
use http_messages::ByteSource;
use std::alloc::AllocError;
use std::io::Write;

/// The reason why there is no next connection.
#[derive(Clone, Copy, Debug, PartialEq, Eq)]
pub enum NextFault {
    /// An allocation failed.
    Memory,
    /// The device failed, or no connection is left.
    Device,
}

impl From<AllocError> for NextFault {
    ghost from_gives = { λ _ fault. fault ≡ Memory };

    fn from(_error: AllocError) -> NextFault {
        NextFault::Memory
    }
}

/// A source of connections. The caller gets each connection from `next`, serves it, and passes it
/// to `back`.
pub trait Connections {
    ghost use Rattle.std.specs.Prelude.{◌≡◌, Option, OnOk, IfOk, IfErr, option_map};
    ghost use Rattle.server.specs.declared.connections.NextFault.{NextFault as Fault};
    ghost use Rattle.server.specs.Exchanges.{Opens, Queue, moved};

    /// The reader of a connection's bytes.
    type In: ByteSource;

    /// The writer of the response.
    type Out: Write;

    /// The connections that were taken back and the bytes of those to come, if they are known.
    ghost queue: { Self → Option Queue };

    /// A connection is in progress: `next` returned it, and it wasn't taken back yet.
    ghost awaits: { Self → Type 0 };

    /// The condition under which `next` may return a fault.
    ghost refuses: { Self → Fault → Type 0 };

    /// Returns the next connection.
    ///
    /// # Errors
    ///
    /// - `Memory`: an allocation fails.
    /// - `Device`: the device fails, or there are no more connections.
    fn next(&mut self) -> Result<(Self::In, Self::Out), NextFault>
        ensures same { queue self.new ≡ queue self.old }
        ensures cause { IfErr result (λ fault. refuses self.new fault) }
        ensures out { OnOk result (awaits self.new) }
        ensures opens { IfOk result
            (λ pair. Opens (queue self.new) (Self.In.brings pair.0) (Self.Out.contents pair.1)) };

    /// Takes back the connection in progress. `served` is its outcome.
    fn back(&mut self, incoming: Self::In, writer: Self::Out, served: Served)
        requires { awaits self.old }
        ensures { queue self.new
            ≡ option_map (moved (Self.Out.contents writer) served) (queue self.old) };
}
