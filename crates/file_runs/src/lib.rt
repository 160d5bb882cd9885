//! Lemmas about the two files of a database that several runs of a server use one after another.
//! The functions do nothing: each contract is a fact for the proofs of its callers.
#![tactic(auto)]

mod files;
mod runs;

pub use files::{files_keep_runs, refused_files_keep_runs, runs_find_files};
pub use runs::runs_go_on;
