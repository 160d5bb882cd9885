//! Serves connections one at a time, with one message and one response each: `serve_one` serves one
//! connection, and `serve_all` a list of them (the main theorem).
#![tactic(auto)]

mod account;
mod beginning;
mod connections;
mod many;
mod memory;
mod one;
mod reply;
mod served;

pub use beginning::Beginning;
pub use connections::{Connections, NextFault};
pub use many::serve_all;
pub use memory::{MemoryConnections, MemoryReader, Replied};
pub use one::{serve_by, serve_one};
pub use served::{End, Served};
