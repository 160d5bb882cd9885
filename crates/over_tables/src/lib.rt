//! Opens the store over a database, or returns why the database is refused. Runs a server over a
//! database file, and a drill over a database in memory.
#![tactic(auto)]

mod cause;
mod drilling;
mod fault;
mod opening;
mod serving;

pub use cause::Cause;
pub use drilling::drill_engine;
pub use fault::{DAMAGED, FileFault, NOT_OURS};
pub use opening::{Wanted, begins, older_version, store_over};
pub use serving::serve_over_tables;
