//! Runs the subcommands of `persod` over files, streams and sockets.
#![tactic(auto)]

mod files;
mod obeying;
mod store_tasks;
mod streams;

pub use obeying::obey;
pub use store_tasks::{ReportTask, ServeTask};
