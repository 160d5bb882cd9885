//! Lemmas about contents as rows of tables: the effect of changes on the rows, and that rows
//! determine contents.
#![tactic(auto)]

mod decided_contents;
mod next_rows;
mod releases;

pub use decided_contents::{rows_decide_contents, same_rows_same_contents};
pub use next_rows::{rows_after_change, rows_with_reply};
pub use releases::rows_after_release;
