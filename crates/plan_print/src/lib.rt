//! Prints the commands of a batch file, for `persod plan`.
#![tactic(auto)]

mod plan;
mod print;

pub use plan::{BatchFault, PlanStop, plan_engine, plan_with_events};
