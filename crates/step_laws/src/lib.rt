//! Lemmas about the reference model: the invariants of its steps, and the meaning of its replies.
//! The functions do nothing: each contract is a fact for the proofs of its callers.
#![tactic(auto)]

mod cards;
mod records;
mod replies;
mod sessions;
mod soundness;
mod sums;

pub use cards::{
    blank_has_one_session, good_stays_good, record_has_one_good_session, words_of_good_sessions_go,
};
pub use records::{one_record_alone_by_change, one_record_alone_changes};
pub use replies::{replies_are_in_range, replies_are_to_requests, replies_state_the_facts};
pub use sessions::{only_its_machine_changes_a_session, sessions_only_grow};
pub use soundness::{same_facts_answer_alike, sessions_are_few, sound_facts_stay_sound};
pub use sums::blanks_by_batches;
