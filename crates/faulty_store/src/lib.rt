//! A store in memory with a faulty device, for tests. The device can fail, be full, lose all data
//! without an error, or be shut, like the disk of a store over SQLite.
#![tactic(auto)]

mod device;
mod store;

pub use device::{Device, Fault, Plan};
pub use store::FaultyStore;
