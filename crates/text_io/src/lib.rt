//! Reads a complete input, splits it into lines and words, parses numbers, and writes a complete
//! text to a writer. `RunStop` is the error of a run that does this. Only the functions with a
//! parameter `alloc` allocate.
#![tactic(auto)]

mod lines;
mod numbers;
mod reading;
mod stop;
mod writing;

pub use lines::{lines_of, word_of, words_of};
pub use numbers::{are_digits, is_number, number_in, number_within, status_word};
pub use reading::{MOST_INPUT, ReadFault, read_whole, read_within};
pub use stop::{RunStop, StreamFault};
pub use writing::{WriteFailed, write_text};
