//! The write that is stored together with a reply.
use job_facts::{BatchTotals, Lot, NewBatch, NewSession, NewWord, RecordState, SessionState};
use store_data::{Name, Product};

/// A record, with the numbers that a write needs from before the change.
#[derive(Clone, Copy)]
pub struct RecordPlace {
    /// The id of the batch.
    pub batch: u64,
    /// The position of the record in its batch, from 0.
    pub place: u64,
    /// The number of spoiled sessions.
    pub spoiled: u64,
    /// The number of remakes.
    pub remakes: u64,
    /// The counters of the batch.
    pub totals: BatchTotals,
}

/// The write that is stored together with a reply: a change of the facts, or a release. A variant
/// also has the values that it needs from the rows before the change.
#[derive(Clone, Copy)]
pub enum Writing<'a> {
    /// No change: only the reply is stored.
    Nothing,
    AddsProduct {
        product: Product,
    },
    AddsLot {
        lot: Lot,
    },
    AddsBatch {
        batch: NewBatch<'a>,
    },
    Opens {
        session: NewSession,
        /// The record of the session, which is waiting.
        place: RecordPlace,
    },
    /// A status word after which the session is still running.
    AddsWord {
        word: NewWord,
    },
    /// A status word after which the session has the state `stands` and is no longer running.
    AddsLastWord {
        word: NewWord,
        stands: SessionState,
        place: RecordPlace,
    },
    /// The end of a session by an `abort` or a `reset`.
    Ends {
        session: u64,
        place: RecordPlace,
    },
    Discards {
        blank: u64,
        /// The name of the blank's lot.
        lot: Name,
        /// The number of discarded blanks of the lot before this one.
        discarded: u64,
    },
    Remakes {
        place: RecordPlace,
    },
    Withdraws {
        /// The state before the withdrawal: waiting or failed.
        was: RecordState,
        place: RecordPlace,
    },
    Closes {
        batch: Name,
    },
    /// The release of the request numbers of `client` up to `upto`.
    Releases {
        client: Name,
        upto: u64,
    },
}
