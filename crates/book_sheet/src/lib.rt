//! The sheet of a batch: one HTML page for the paper records of the job.
#![tactic(auto)]

mod html;
mod sheet;

pub use sheet::sheet_of;
