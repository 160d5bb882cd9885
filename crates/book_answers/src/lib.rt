//! Runs the subcommands of `shopbook`.
#![tactic(auto)]

mod answer;
mod from_file;
mod printing;

pub use answer::{Answer, answer_to};
pub use from_file::{Printed, print_from_file};
pub use printing::print_answer;
