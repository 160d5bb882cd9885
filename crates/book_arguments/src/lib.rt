//! Reads the arguments of `shopbook`.
#![tactic(auto)]

mod commands;
mod words;

pub use words::{Ask, BookWords, read_book_words};
