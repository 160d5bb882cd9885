//! The damage to the rows of a database.
ghost use Rattle.std.specs.Prelude.{◌≡◌, Some};
ghost use Rattle.examination.specs.Words.{damage_word};

use audit_rows::Rule;
use std::fmt;

/// The damage to the rows of a database whose tables are the tables of a schema version.
#[derive(Clone, Copy, Debug, PartialEq, Eq)]
pub enum Damage {
    /// A row has a value that no row of its table can have.
    UnreadableRow,
    /// The first audit rule that the rows break.
    Broken { rule: Rule },
}

impl Damage {
    /// Returns the printed word, which is the name of the rule.
    pub fn word(self) -> &'static str
        ensures { result.now ≡ damage_word self }
    {
        match self {
            Damage::UnreadableRow => "unreadable-row",
            Damage::Broken { rule } => rule.name(),
        }
    }
}

impl fmt::Display for Damage {
    ghost output = { λ damage. Some (damage_word damage) };

    fn fmt<W: fmt::Write>(&self, f: &mut fmt::Formatter<W>) -> fmt::Result {
        f.write_str(self.word())
    }
}
