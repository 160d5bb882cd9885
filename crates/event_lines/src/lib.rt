//! Builds and writes event lines: a word, then keys with values, for people who watch the program.
#![tactic(auto)]

mod level;
mod line;
mod log;

pub use level::{Level, level_of};
pub use line::EventLine;
pub use log::EventLog;
