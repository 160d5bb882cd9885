//! The replies to requests.
use crate::refusal::Refusal;
use batch_import::RowFault;
use store_data::{Bytes, Name};

/// The effect of a request that registers something.
#[derive(Clone, Copy, Debug, PartialEq, Eq)]
pub enum Made {
    /// It was created.
    Created,
    /// It already exists with the same values, and nothing changed.
    Known,
}

/// The reply to a request.
#[derive(Drop)]
pub enum Reply {
    Product {
        product: Name,
        made: Made,
    },
    Lot {
        lot: Name,
        made: Made,
    },
    /// The numbers of records and rows of the stored batch.
    Import {
        batch: Name,
        records: u32,
        made: Made,
        rows: u32,
    },
    /// A new session, with its first command.
    Opened {
        batch: Name,
        blank: u64,
        command: Bytes,
        rec: Name,
        session: u64,
    },
    /// The next command of a session.
    Next {
        command: Bytes,
        index: u64,
        session: u64,
    },
    Good {
        session: u64,
    },
    Spoiled {
        session: u64,
    },
    /// The number of the session that was ended, or 0 if no session was running.
    Reset {
        session: u64,
    },
    Discarded {
        blank: u64,
    },
    Waiting {
        batch: Name,
        rec: Name,
    },
    Withdrawn {
        batch: Name,
        rec: Name,
    },
    Closed {
        batch: Name,
    },
    Refused {
        refusal: Refusal,
    },
    /// The running session of the machine (refusal 61, machine-busy).
    Busy {
        session: u64,
    },
    /// The release mark of the client after a release.
    Released {
        mark: u64,
    },
    /// The release mark of the client. The request number is at most this mark (refusal 73,
    /// number-released).
    NumberReleased {
        mark: u64,
    },
    /// The first fault of the batch file.
    Faulty {
        fault: RowFault,
    },
}
