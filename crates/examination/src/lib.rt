//! Examines a database. If it has the tables of a schema version, finds the version, the rows and
//! the first audit rule that they break. Otherwise, finds how its tables differ from the nearest
//! version.
#![tactic(auto)]

mod damage;
mod difference;
mod finding;
mod schemas;

pub use damage::Damage;
pub use difference::Difference;
pub use finding::{ExaminedRows, Finding, examine};
