//! Reads the arguments of `persod`, and builds options and flags for `clap`.
#![tactic(auto)]

mod commands;
mod words;

pub use commands::{flag, text, with_argument, with_subcommand};
pub use words::{FeedStart, ValueFault, Words, WordsFault, matches_of, name_of, read_words};
