//! Runs worked examples that need a store: requests and messages with their responses, through
//! every public function.
#![tactic(auto)]

mod exchanges;
mod machine;
mod messages;
mod typed;
mod ways;

pub use exchanges::{Scripted, check_exchanges};
pub use machine::check_machine;
pub use messages::check_messages;
pub use ways::StoreKind;
