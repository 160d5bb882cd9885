//! The statements that read rows, and the values of their results.
//!
//! A read doesn't change the database, and a crash during a read leaves what it could leave before.
//!
//! # Errors
//!
//! Every read returns the error of SQLite if its query fails, and `Error::InvalidQuery` if a row
//! has a value that the store never writes.
//!
//! No contract says why a query fails. The contracts of the public functions also don't state that
//! a row with valid values is read. Only `Answered::read`, inside this crate, does (clause
//! `total`).
#![tactic(auto)]

mod answered;
mod batches;
mod blanks;
mod groupings;
mod lots;
mod marks;
mod products;
mod records;
mod replies;
mod sessions;
mod values;

pub use batches::{
    BatchAt, BatchHead, batch_by_name, batch_has, batch_head, batch_id, batch_name, batches_of,
    last_batch,
};
pub use blanks::is_charged;
pub use groupings::{CodedAt, GroupingAt, coded_of, grouping_count, groupings_of};
pub use lots::{LotRow, MOST_SERIAL, all_lots, last_lot, lot, lot_count, lots_of, overlaps};
pub use marks::mark;
pub use products::{product, product_count};
pub use records::{RecordAt, first_waiting, record_at, record_named, records_of};
pub use replies::{kept, reply_count};
pub use sessions::{GoodCard, SessionAt, good_sessions, last_session, running_session, session};
