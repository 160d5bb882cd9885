//! Prints the output of a subcommand.
ghost use Rattle.std.specs.Prelude.{◌≡◌};
ghost use Rattle.book_file.specs.Found.{HasVerdict};
ghost use Rattle.book_answers.specs.Answers.{Prints};

use crate::answer::answer_to;
use book_arguments::BookWords;
use book_file::Book;
use std::alloc::Global;
use std::io::Write;
use subcommands::End;
use text_io::write_text;

/// Prints the output of the subcommand `words` on the database `book`, and returns the outcome of
/// the run. If the writer fails, only a prefix is written. If an allocation fails, nothing is
/// written.
pub fn print_answer<W: Write>(alloc: Global, words: &BookWords, book: &Book, writer: &mut W) -> End
    requires { HasVerdict book.now.tables book.now.failing }
    ensures { Prints words.now book.now (W.contents writer.old) (W.contents writer.new) result }
{
    match answer_to(alloc, words, book) {
        Err(_) => End::Memory,
        Ok(answer) => match write_text(writer, &answer.text) {
            Ok(()) => answer.end,
            Err(_) => End::WriteFailed,
        },
    }
}
