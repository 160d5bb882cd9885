//! Reads files of worked examples (docs/WORKED.md), and runs those that need no store: batch files
//! with their commands or refusals, and tables.
#![tactic(auto)]

mod fault;
mod message;
mod plans;
mod reply;
mod tables;
mod text;
mod walks;

pub use fault::{CaseFault, NO_STORE, check_bytes};
pub use message::{get, post};
pub use plans::{Printed, check_plan};
pub use reply::{JSON, TEXT, Wanted, reply_bytes, wanted_of};
pub use tables::{Table, check_table};
pub use text::{Case, Line, Repeats, cases, put_bytes};
pub use walks::{put_command, put_name};
