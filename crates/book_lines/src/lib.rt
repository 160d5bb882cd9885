//! The lines of `shopbook`: text for auditors and the office, made from the rows of a database.
#![tactic(auto)]

mod blank_state;
mod blanks;
mod by_client;
mod card;
mod cards;
mod cell;
mod charge;
mod client;
mod clients;
mod counts;
mod form;
mod keyed;
mod limits;
mod line;
mod lists;
mod machines;
mod printed;
mod report;
mod shown;

pub use blank_state::{BlankState, stands_by};
pub use blanks::{batch_charges, blank_cells, blanks_of};
pub use card::Card;
pub use cards::{batch_cards, batch_named, card_cells, cards_of};
pub use cell::Cell;
pub use charge::Charge;
pub use counts::check_text;
pub use form::Form;
pub use line::{push_number, push_status};
pub use lists::{batch_cells, list_text, open_or_closed};
pub use machines::machines_text;
pub use report::{batch_report, reports_by_rows};
pub use shown::Shown;
