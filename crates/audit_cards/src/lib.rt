//! Audits sorted rows: batches with their files, records and sessions, status words, and remakes.
#![tactic(auto)]

mod batches;
mod by_record;
mod cards;
mod counts;
mod files;
mod records;
mod remakes;
mod sessions;
mod tables;
mod words;

pub use tables::{has_files, has_remakes};
pub use words::has_words;
