//! The rows of the store's tables, and the writes that change them.
//!
//! The rows have the types of their columns, but no other condition is checked: a damaged file can
//! contain them too.
#![tactic(auto)]

mod rows;
pub mod writing;

pub use rows::{
    StoredBatch, StoredBlank, StoredGrouping, StoredLot, StoredMark, StoredProduct, StoredRecord,
    StoredRemake, StoredReply, StoredSession, StoredWord, Tables,
};
pub use writing::{RecordPlace, Writing};
