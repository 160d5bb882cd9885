//! Reads a database file and prints the reply to a subcommand of `shopbook`.
ghost use Rattle.std.specs.Prelude.{◌≡◌, IfErr, IfOk, IfSome, IsTrue, length};
ghost use Rattle.sqlite.specs.WalFiles.{image_at};
ghost use Rattle.book_answers.specs.Answers.{PrintsFile};

use crate::printing::print_answer;
use audit_rows::Rule;
use book_arguments::BookWords;
use book_file::book_in;
use over_tables::FileFault;
use sqlite::FileFrom;
use sqlite_disk::{Disk, Files, Start};
use std::io::Write;
use subcommands::End;

/// The result of printing from a database file that was read.
#[derive(Drop)]
pub struct Printed {
    /// The end of the run.
    pub end: End,
    /// The first rule that the rows break, if they break one.
    pub failing: Option<Rule>,
}

/// Reads and audits the database file that `words` names, and prints the reply to its subcommand to
/// `writer`. The file is closed before anything is printed. `start` represents the contents of the
/// two files before the call. The contract holds for any such contents.
///
/// # Errors
///
/// Returns why the file isn't read. Nothing is printed then.
pub fn print_from_file<S: Start, W: Write>(
    rt: &HostRuntime,
    words: &BookWords,
    start: S,
    writer: &mut W,
) -> Result<Printed, FileFault>
    ensures printed { IfOk result (PrintsFile ⟦<FileFrom<S> as Disk>⟧ (image_at S.Start) words.now
        (W.contents writer.old) (W.contents writer.new)) }
    ensures refused { IfErr result (λ _. W.contents writer.new ≡ W.contents writer.old) }
{
    // Dropped here, so that the types of a store are dropped in no program.
    let (read, files) = book_in(rt, words.db.as_str(), start);
    let size = size_in(files);
    let mut book = read?;
    book.size = size;
    let end = print_answer(rt.alloc(), words, &book, writer);
    let failing = book.failing;
    Ok(Printed { end, failing })
}

// Closes the two files, and returns the size of the database file in bytes. Returns `None` if there
// are no files, or if the device can't return the size.
fn size_in<D: Disk + Drop>(files: Option<Files<D>>) -> Option<u64> {
    let mut files = files?;
    size_of(&mut files.db)
}

// Returns the size of `file` in bytes, if the device returns it.
fn size_of<D: Disk>(file: &mut D) -> Option<u64>
    ensures { IfSome result
        (λ size. IsTrue (D.Disk.is_clean file.new) → size ≡ length (D.Disk.seen file.old)) }
{
    if !file.may_be_used() {
        return None;
    }
    match file.len() {
        Ok(len) => Some(len as u64),
        Err(_) => None,
    }
}
