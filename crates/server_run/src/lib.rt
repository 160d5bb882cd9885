//! A run of a server: it serves connections, observes each one, and writes all lines and event lines
//! of the server.
#![tactic(auto)]

mod closing;
mod ended;
mod import;
mod kept;
mod line;
mod noted;
mod observation;
mod observing;
mod opening;
mod run;
mod sequence;
mod stopping;
mod words;

pub use opening::Opened;
pub use run::serve_and_report;
pub use stopping::ServeStop;
pub use words::refusal_in;
