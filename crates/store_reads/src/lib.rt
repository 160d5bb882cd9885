//! Reads a store's contents from its database.
//!
//! # Errors
//!
//! Every function that reads returns the error of SQLite if a query fails. It returns
//! `Error::InvalidQuery` if the rows can't represent sound contents, or if a number is too large
//! for SQLite.
#![tactic(auto)]

mod batches;
mod changes;
mod counts;
mod known;
mod lines;
mod lots;
mod names;
mod numbers;
mod plans;
mod records;
mod replies;
mod reports;
mod segments;
mod sessions;
mod sums;

pub use batches::{batch, batch_has, batch_size, batch_totals, is_finished};
pub use changes::writing_of;
pub use counts::{batch_count, lot_count, product_count, session_count};
pub use known::Known;
pub use lots::{is_charged, lot, lot_of, overlaps};
pub use names::product;
pub use records::{first_waiting, record_state};
pub use replies::{kept, mark, reply_count};
pub use reports::{blank_totals, record_lines};
pub use segments::segment;
pub use sessions::{running_session, session};
