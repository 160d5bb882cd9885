//! A connection that its source has taken back.
ghost use Rattle.std.specs.Prelude.{◌≡◌, option_map};
ghost use Rattle.server.specs.Exchanges.{moved};

use crate::observation::Observation;
use server::Connections;

/// The observation of a connection that its source has taken back. Only `new` creates a value, so
/// event lines that need one are written after the end of the connection, and no peer waits for
/// them.
#[derive(Drop)]
pub(crate) struct Ended {
    observation: Observation,
}

impl Ended {
    /// Passes the connection in progress back to `connections`.
    pub(crate) fn new<C: Connections>(
        connections: &mut C,
        incoming: C::In,
        writer: C::Out,
        observation: Observation,
    ) -> Ended
        requires { C.awaits connections.old }
        ensures queue { C.queue connections.new ≡ option_map
            (moved (C.Out.contents writer) observation.served) (C.queue connections.old) }
        ensures kept { result.observation ≡ observation }
    {
        connections.back(incoming, writer, observation.served);
        Ended { observation }
    }

    /// Returns the observation.
    pub(crate) fn observation(&self) -> &Observation
        ensures { result.now ≡ self.now.observation }
    {
        &self.observation
    }
}
