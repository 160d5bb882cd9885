//! Finds the cause of the refusal of a batch file: the line of its row, the field, and the fault
//! among those that share a number.
//!
//! The cause is found by a second look at the file. No reply depends on it.
#![tactic(auto)]

mod blame;
mod cause;
mod explanation;
mod fields;
mod line;
mod pair;
mod start;

pub use blame::Blame;
pub use cause::Cause;
pub use explanation::{Explanation, explain_fault};
pub use line::{fault_line, note_fault, note_refused};
pub use start::{RowLabel, RowStart};
