//! Runs a drill: a script moves machines, packets and replies of a simulated shop floor around a
//! server whose store is empty at first.
#![tactic(auto)]

mod delivery;
mod engine;
mod floor;
mod inputs;
mod line;
mod lists;
mod script;
mod sent;
mod step;
mod stop;
mod texts;
mod turn;

pub use engine::drill_over;
pub use inputs::serve_inputs;
pub use lists::drill_over_lists;
pub use stop::{DrillFault, DrillStop, unopened};
