//! Finds damage of a write-ahead log that recovery doesn't report: commits after the first invalid
//! frame.
#![tactic(auto)]

mod format;
mod look;
mod walk;

pub use look::{Look, LookFault, look_at};
