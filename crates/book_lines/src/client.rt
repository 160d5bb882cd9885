//! The name of a client, and the rows that belong to a client.
ghost use Rattle.std.specs.Prelude.{◌≡◌, ℕ, List};

use std::marker::Model;
use table_rows::{StoredMark, StoredReply, StoredSession};

/// The name of a client, which is a machine or an office.
#[derive(Drop)]
pub(crate) struct Client<'a> {
    pub(crate) name: &'a [u8],
}

impl<'a> Model for Client<'a> {
    ghost use Rattle.std.specs.Prelude.{List, ℕ};

    ghost Value = { List ℕ };

    ghost view = { λ c. c.name.now };
}

/// A row that belongs to a client.
pub(crate) trait OfClient {
    ghost client: { Self → List ℕ };

    /// Returns the name of the client.
    fn client(&self) -> &[u8]
        ensures { result.now ≡ client self.now };
}

/// A session belongs to its machine.
impl OfClient for StoredSession {
    ghost client = { λ s. s.machine };

    fn client(&self) -> &[u8] {
        &self.machine
    }
}

/// A kept reply belongs to the client that sent the request.
impl OfClient for StoredReply {
    ghost client = { λ e. e.client };

    fn client(&self) -> &[u8] {
        &self.client
    }
}

/// A release mark belongs to the client that released its replies.
impl OfClient for StoredMark {
    ghost client = { λ m. m.client };

    fn client(&self) -> &[u8] {
        &self.client
    }
}
