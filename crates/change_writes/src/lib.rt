//! Writes a change of the facts or a release, with its reply, in one transaction.
#![tactic(auto)]

mod cards;
mod changes;
mod commits;
mod counters;
mod imports;
mod records;
mod releases;
mod writable;

pub use commits::commit;
pub use counters::counters_after;
