//! The effect of a statement on one table of any schema, and the result of a transaction.
#![tactic(auto)]

pub mod laws;
mod making;
mod reading;
mod transacting;

pub use making::{is_empty, make};
pub use reading::{int, rows_of};
pub use transacting::{UnitOfWork, transact};
