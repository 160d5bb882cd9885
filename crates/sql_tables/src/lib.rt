//! Creates the tables in which a store over SQLite keeps its facts and replies, and determines the
//! version of existing tables.
#![tactic(auto)]

mod alike;
mod each;
mod opening;
mod parts;
mod same;
mod terms;
mod texts;
mod versions;

pub use alike::has_exactly;
pub use each::{Runs, run_both, run_each};
pub use opening::{make_all, make_tables};
pub use parts::are_same_but_tree;
pub use versions::{Version, VersionMatch, tables_of, version_in};
