//! Sorts the rows of the tables by their keys, and finds the rows with a number, the lot of a
//! serial and the product with a name among them.
#![tactic(auto)]

mod lots;
mod names;
mod order;
mod ranges;
mod sorting;

pub use lots::lot_for;
pub use names::{is_name, product_named};
pub use order::{InOrder, sort_rows};
pub use ranges::{Ranged, range_of};
pub use sorting::sort_tables;
