//! Runs the subcommands of `persod`. The end of a run determines its exit status.
#![tactic(auto)]

mod end;
mod joins;
mod subcommand;
mod suspect;
mod unstarted;

pub use end::{End, ErrorLine, Exit, end_of_words, exit_of, status_of};
pub use joins::{end_of_close, explain, level_by, note_refusal, wanted_of};
pub use subcommand::{product_of, run, run_feed};
pub use suspect::note_suspect_wal;
pub use unstarted::note_unstarted;
