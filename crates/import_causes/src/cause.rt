//! The causes that share the number of a fault.
ghost use Rattle.std.specs.Prelude.{◌≡◌, Some};
ghost use Rattle.import_causes.specs.Words.{word_of};

use std::fmt;

/// The cause of a fault whose number stands for several causes (this project's profile).
#[derive(Clone, Copy, Debug, PartialEq, Eq)]
pub enum Cause {
    /// Fault 30: the row has fewer than six fields.
    FewFields,
    /// Fault 30: the row has more than six fields.
    ManyFields,
    /// Fault 31: the file has no rows.
    NoRows,
    /// Fault 31: the field isn't the name of its column.
    ColumnName,
    /// Fault 32 or 34: the field is empty.
    Empty,
    /// Fault 32, 33 or 34: the field, or the AID in it, is too long.
    Long,
    /// Fault 33: the AID has fewer than 5 bytes.
    Short,
    /// Fault 32: a character can't be part of a name.
    Character,
    /// Fault 33 or 36: a character isn't a hexadecimal digit, or the number of digits is odd.
    NotHex,
    /// Fault 34: a character isn't a decimal digit.
    NotDecimal,
    /// Fault 34: the rank is 0.
    Zero,
    /// Fault 35: `enc` is invalid. Fault 21: `enc` differs.
    Enc,
    /// Fault 35: only `tol` is invalid. Fault 21: only `tol` differs.
    Tol,
    /// Fault 36: there are fewer than two bytes.
    ShortIdentifier,
    /// Fault 36: the bytes end before the end of the length.
    ShortLength,
    /// Fault 36: the length exceeds 16,384.
    LongData,
    /// Fault 36: there are fewer data bytes than the length says.
    ShortData,
    /// Fault 36: bytes follow the data.
    Trailing,
}

impl Cause {
    /// Returns the printed word.
    pub fn word(self) -> &'static str
        ensures { result.now ≡ word_of self }
    {
        match self {
            Cause::FewFields => "few-fields",
            Cause::ManyFields => "many-fields",
            Cause::NoRows => "no-rows",
            Cause::ColumnName => "column-name",
            Cause::Empty => "empty",
            Cause::Long => "long",
            Cause::Short => "short",
            Cause::Character => "character",
            Cause::NotHex => "not-hex",
            Cause::NotDecimal => "not-decimal",
            Cause::Zero => "zero",
            Cause::Enc => "enc",
            Cause::Tol => "tol",
            Cause::ShortIdentifier => "short-identifier",
            Cause::ShortLength => "short-length",
            Cause::LongData => "long-data",
            Cause::ShortData => "short-data",
            Cause::Trailing => "trailing",
        }
    }
}

impl fmt::Display for Cause {
    ghost output = { λ cause. Some (word_of cause) };

    fn fmt<W: fmt::Write>(&self, f: &mut fmt::Formatter<W>) -> fmt::Result {
        f.write_str(self.word())
    }
}
