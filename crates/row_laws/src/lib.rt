//! Lemmas about the rows of an image: what a look-up by a key finds, and which values it returns.
#![tactic(auto)]

mod accounts;
mod batches;
mod blanks;
mod groupings;
mod numbers;
mod records;
mod replies;
mod sessions;

pub use accounts::{blanks_by_rows, lines_by_rows};
pub use batches::{batches_by_id, batches_by_name, batches_by_rows, totals_by_rows};
pub use blanks::{blanks_by_serial, lots_by_name, lots_by_range};
pub use groupings::{groupings_by_place, plans_by_rows};
pub use numbers::numbers_of_rows;
pub use records::{records_by_name, records_by_place, records_of_batches};
pub use replies::replies_by_number;
pub use sessions::{running_sessions_by_machine, sessions_by_number};
