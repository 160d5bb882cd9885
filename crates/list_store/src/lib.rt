//! A store in memory, of plain lists. It is a simple and slow implementation of `JobStore` for the
//! drill and for tests.
#![tactic(auto)]

mod accounts;
mod again;
mod blanks;
mod changes;
mod cursors;
mod kept;
mod lists;
mod marks;
mod names;
mod records;
mod segments;
mod sessions;
mod states;
mod store;

pub use store::ListStore;
