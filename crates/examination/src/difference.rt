//! The difference between the tables of a database and the tables of a schema version.
ghost use Rattle.std.specs.Prelude.{◌≡◌, Some, option_map};
ghost use Rattle.examination.specs.Words.{name_in, word_of};

use std::fmt;

/// The difference between the tables of a database and the tables of the nearest version. Names are
/// bytes from the file, which another program may have chosen.
#[derive(Debug, Drop, PartialEq, Eq)]
pub enum Difference {
    /// The database has no table, no index and no view.
    Empty,
    /// The first table of the version that the database doesn't have. Nothing else has its name.
    Missing { table: Vec<u8> },
    /// The first table of the version that the database doesn't have. Something else has its name.
    Other { table: Vec<u8> },
    /// The first table that isn't in the version.
    Foreign { table: Vec<u8> },
    /// The first index that is a key but isn't declared by a table.
    FurtherKey { index: Vec<u8> },
    /// The first view or trigger, or the first table that isn't understood.
    View { view: Vec<u8> },
    /// Two tables are stored at the same page of the file.
    SharedPage,
    /// The row of `version` has the number of another version.
    OtherVersion,
}

impl Difference {
    /// Returns the printed word.
    pub fn word(&self) -> &'static str
        ensures { result.now ≡ word_of self.now }
    {
        match self {
            Difference::Empty => "empty",
            Difference::Missing { table: _ } => "missing-table",
            Difference::Other { table: _ } => "other-table",
            Difference::Foreign { table: _ } => "foreign-table",
            Difference::FurtherKey { index: _ } => "further-key",
            Difference::View { view: _ } => "view",
            Difference::SharedPage => "shared-page",
            Difference::OtherVersion => "other-version",
        }
    }

    /// Returns the name of the table, the index or the view.
    pub fn name(&self) -> Option<&[u8]>
        ensures { option_map (λ name. name.now) result ≡ name_in self.now }
    {
        match self {
            Difference::Missing { table }
            | Difference::Other { table }
            | Difference::Foreign { table } => Some(table.as_slice()),
            Difference::FurtherKey { index } => Some(index.as_slice()),
            Difference::View { view } => Some(view.as_slice()),
            Difference::Empty | Difference::SharedPage | Difference::OtherVersion => None,
        }
    }
}

impl fmt::Display for Difference {
    ghost output = { λ difference. Some (word_of difference) };

    fn fmt<W: fmt::Write>(&self, f: &mut fmt::Formatter<W>) -> fmt::Result {
        f.write_str(self.word())
    }
}
