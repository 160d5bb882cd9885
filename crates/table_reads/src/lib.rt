//! Reads all rows of a database, in the tables of any schema version, in any order and with any
//! tree numbers.
#![tactic(auto)]

mod cards;
mod conversion;
pub mod laws;
mod names;
mod reads;
mod replies;
mod rowids;
mod stored;
mod streaming;
mod tables;
mod values;
mod version;

pub use reads::{TableRows, whole};
pub use replies::with_reply_bytes;
pub use stored::Stored;
pub use tables::{HeldRows, read_for_audit};
pub use version::says;
