//! The reference model: facts about batches, cards and blanks, requests and replies, the definition
//! of their effect, and the interface of a store that keeps the facts.
#![tactic(auto)]

mod change;
mod entry;
mod facts;
mod failed;
mod lots;
mod refusal;
mod reopen;
mod reply;
mod request;
mod rows;
mod server_store;
mod store;

pub use change::{Change, NewBatch, NewSession, NewWord};
pub use entry::Entry;
pub use facts::{Lot, RecordState, SessionState};
pub use failed::Failed;
pub use lots::{any_overlaps, lot_among};
pub use refusal::{MACHINE_BUSY, NUMBER_RELEASED, Refusal};
pub use reopen::Reopen;
pub use reply::{Made, Reply};
pub use request::{Arrival, Call, Request};
pub use rows::{
    BatchRow, BatchSize, BatchTotals, BlankTotals, KeptReply, RecordLine, SegmentRow, SessionRow,
};
pub use server_store::{FaultCounts, ServerStore};
pub use store::{JobStore, StoreFault};
