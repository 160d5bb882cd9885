//! Opens a database if its tables hold the rows of sound contents, and refuses any other.
#![tactic(auto)]

mod adopting;
mod faults;
mod settling;

pub use adopting::adopt;
pub use faults::{OpenFault, fault_of};
