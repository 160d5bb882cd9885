//! Rebuilds a database with tables of any schema version: drops its tables, creates the tables of
//! the current schema, and inserts the given rows, all in one transaction.
//!
//! The contracts don't state that this succeeds for valid rows. Only tests show it.
#![tactic(auto)]

mod anew;
mod batches;
mod bytes;
mod cards;
mod filling;
mod putting;
mod remaking;
mod replies;

pub use remaking::remake;
