//! Reads all rows of a database file and audits them, without writing to the file.
#![tactic(auto)]

mod book;
mod file;
mod guarded;
mod opening;
mod reading;

pub use book::Book;
pub use file::book_in;
pub use reading::read_book;
