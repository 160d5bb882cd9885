//! The statements that write, and their effects on the rows of the tables.
#![tactic(auto)]

mod batches;
mod cards;
mod changing;
mod file_rows;
mod inserts;
mod new_rows;
mod releases;

pub use batches::{add_batch, enc_code};
pub use cards::{add_blank, add_session, add_word, session_code, set_session};
pub use changing::{record_code, set_closed, set_end, set_lot, set_raw, set_record, set_totals};
pub use file_rows::{ROWS_AT_ONCE, add_grouping, add_groupings, add_record, add_records};
pub use inserts::{add_lot, add_mark, add_product, add_remake, add_reply};
pub use new_rows::{FileRow, NewRecord};
pub use releases::{drop_mark, drop_replies};
