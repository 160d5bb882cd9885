//! The causes of refusal 81.
ghost use Rattle.std.specs.Prelude.{◌≡◌, Some, option_map};
ghost use Rattle.over_tables.specs.Causes.{commits_in, name_in, word_of};

use examination::Difference;
use std::fmt;

/// The reason why a database file is refused with number 81.
#[derive(Debug, Drop, PartialEq, Eq)]
pub enum Cause {
    /// No file has this path.
    NoFile,
    /// The folder of the file doesn't exist.
    NoFolder,
    /// The path leads to a folder.
    Folder,
    /// The path leads to a device, a socket, a broken link or a file with a second name (a hard
    /// link), or SQLite doesn't accept the path.
    Special,
    /// The user isn't allowed to read and write the file or its WAL, or to create one of them in
    /// its folder.
    NoRight,
    /// There is a rollback journal next to the file, which only SQLite's own library can undo.
    Journal,
    /// Another process has the file open.
    InUse,
    /// The file doesn't begin like a file that SQLite wrote.
    NotSqlite,
    /// The schema isn't understood, or the rows and indexes don't conform to it.
    Invalid,
    /// Pages of the file are damaged.
    Corrupt,
    /// The file can't be opened for another reason.
    CannotOpen,
    /// The WAL is damaged. After the damage it still has `commits` durable commits, which would be
    /// lost if SQLite recovered it.
    DamagedWal { commits: u64 },
    /// The tables differ from the tables of a store. `difference` is the first difference.
    Tables { difference: Difference },
}

impl Cause {
    /// Returns the word for the cause in messages and event lines, such as `in-use`.
    pub fn word(&self) -> &'static str
        ensures { result.now ≡ word_of self.now }
    {
        match self {
            Cause::NoFile => "no-file",
            Cause::NoFolder => "no-folder",
            Cause::Folder => "folder",
            Cause::Special => "special-file",
            Cause::NoRight => "no-right",
            Cause::Journal => "journal",
            Cause::InUse => "in-use",
            Cause::NotSqlite => "not-sqlite",
            Cause::Invalid => "invalid-database",
            Cause::Corrupt => "corrupt",
            Cause::CannotOpen => "cannot-open",
            Cause::DamagedWal { commits: _ } => "damaged-wal",
            Cause::Tables { difference } => difference.word(),
        }
    }

    /// Returns the name of the table, index or view that differs, if the cause names one.
    pub fn name(&self) -> Option<&[u8]>
        ensures { option_map (λ name. name.now) result ≡ name_in self.now }
    {
        match self {
            Cause::Tables { difference } => difference.name(),
            _ => None,
        }
    }

    /// Returns the number of durable commits that a recovery would lose, if the WAL is damaged.
    pub fn commits(&self) -> Option<u64>
        ensures { result ≡ commits_in self.now }
    {
        match self {
            Cause::DamagedWal { commits } => Some(*commits),
            _ => None,
        }
    }
}

impl fmt::Display for Cause {
    ghost output = { λ cause. Some (word_of cause) };

    fn fmt<W: fmt::Write>(&self, f: &mut fmt::Formatter<W>) -> fmt::Result {
        f.write_str(self.word())
    }
}
