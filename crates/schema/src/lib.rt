//! The store over SQLite. It keeps facts, kept replies and release marks in the tables of one
//! database.
#![tactic(auto, using(crate::proofs::Knowing::knows_still))]

mod again;
mod closing;
mod faults;
mod keeping;
pub mod opening;
pub mod store;

pub use adoption::OpenFault;
pub use store::SqlStore;
