//! Converts HTTP messages to requests, and makes the messages that clients send.
#![tactic(auto)]

mod ask;
mod body;
mod flaw;
mod meaning;
pub mod members;
mod post;
mod request;
mod route;

pub use ask::{AskFault, Asked, Wanted, push_import_tail, to_ask};
pub use meaning::{Meaning, read_meaning};
pub use post::{import_text, job_text};
pub use route::Routes;
