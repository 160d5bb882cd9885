//! Lemmas about the audit of rows: it accepts exactly the rows that represent sound contents.
#![tactic(auto)]

mod laws;

pub use laws::{audited_rows_are_sound, sound_rows_are_audited};
