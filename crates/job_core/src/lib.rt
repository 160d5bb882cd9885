//! Decides requests by the reference model: returns the reply to a request and its change to the
//! facts.
#![tactic(auto)]

mod decision;

pub use decision::decide;
pub use job_facts::{
    Arrival, BatchRow, BatchSize, BatchTotals, BlankTotals, Call, Change, JobStore, KeptReply, Lot,
    Made, RecordLine, RecordState, Refusal, Reply, Request, SegmentRow, SessionRow, SessionState,
    StoreFault, any_overlaps, lot_among,
};
