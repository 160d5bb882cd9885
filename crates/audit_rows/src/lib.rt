//! Checks whether the rows of the tables represent sound contents, and which audit rule they break
//! if they don't.
#![tactic(auto)]

mod audit;
mod blanks;
mod copying;
mod ids;
mod machines;
mod named;
mod numbered;
mod once;
mod replies;
mod rule;
mod sound;

pub use rule::Rule;
pub use sound::{first_failing, is_sound, sort_and_audit};
