//! The requests of clients.
use crate::facts::Lot;
use store_data::{Bytes, Name, Product};

/// A request, except a release. Numbers are in the ranges of this project's profile.
#[derive(Drop)]
pub enum Request {
    /// Registers a product.
    Product {
        product: Product,
    },
    /// Registers the blanks of a lot.
    Lot {
        lot: Lot,
    },
    /// Imports the batch file `raw` for a product.
    Import {
        batch: Name,
        product: Name,
        raw: Bytes,
    },
    /// Opens a session for the first waiting record of a batch, on the blank `blank`.
    Open {
        batch: Name,
        blank: u64,
    },
    /// Reports the status word `sw` of the card for the command `index`.
    Answer {
        session: u64,
        index: u32,
        sw: u16,
    },
    /// Ends a session, which is then spoiled.
    Abort {
        session: u64,
    },
    /// Ends the running session of the client, if there is one. It is then spoiled.
    Reset,
    /// Charges a blank that won't be used.
    Discard {
        blank: u64,
    },
    /// Changes a failed record back to waiting.
    Remake {
        batch: Name,
        rec: Name,
    },
    /// Excludes a record from production.
    Withdraw {
        batch: Name,
        rec: Name,
    },
    /// Closes a finished batch.
    Close {
        batch: Name,
    },
}

/// A request or a release.
#[derive(Drop)]
pub enum Call {
    /// A request that the reference model decides.
    Job { request: Request },
    /// A release of the client's numbers up to `upto`, 1 to 999,999,999,999,999,999, which deletes
    /// the replies kept under them.
    Release { upto: u64 },
}

/// A request as received, with its client, request number and request bytes.
#[derive(Drop)]
pub struct Arrival {
    /// The client.
    pub client: Name,
    /// The request number, 1 to 999,999,999,999,999,999.
    pub number: u64,
    /// The request bytes.
    pub ask: Bytes,
    /// The request.
    pub request: Call,
}
