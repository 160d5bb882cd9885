//! Opens the store in a database file for one task, and finds the reason why a file can't be
//! opened.
#![tactic(auto)]

mod faults;
mod file;
mod new_file;
mod place;
mod wal;

pub use faults::unopened;
pub use file::{FileState, StoreTask, with_store};
pub use new_file::create_private;
pub use place::{Place, has_log, has_more, place_of};
pub use wal::{files_at, has_suspect_wal, refuse_damaged, refuse_damaged_at};
