//! The engine of `persod feed`: a driver that processes a list of simulated cards with a server.
#![tactic(auto)]

mod card;
mod engine;
mod events;
mod exchange;
mod feed;
mod flaw;

pub use engine::{FeedFault, FeedStop, feed_engine, feed_with_events};
pub use exchange::Exchange;
pub use feed::MachineStart;
pub use flaw::{Flaw, flaw_of};
