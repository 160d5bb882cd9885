//! Reads the fields of a row of a batch file.
//!
//! Only the first six fields are kept, because a wrong row can have millions of them.
ghost use Rattle.std.specs.Prelude.{◌≡◌, ◌≤◌, ◌<◌, ◌+◌, ◌++◌, ◌∷◌, ◌^◌, [], ℕ, List, length};
ghost use Rattle.std.specs.Prelude.{IfOk, MatchBool, OnOk};
ghost use Rattle.batch_import.specs.Fields.{field};
ghost use Rattle.import_causes.specs.RowTexts.{IsOf, IsReading, first_row};

use batch_import::grammar::{Effect, Place, is_in_row, step};
use std::alloc::{AllocError, Global};
use std::mem;

/// The number of fields of a valid row.
const COLUMNS: usize = 6;

/// The first six fields of a row, and the number of all its fields.
#[derive(Drop)]
pub(crate) struct RowText {
    fields: Vec<Vec<u8>>,
    count: usize,
}

impl RowText {
    // Creates a row without fields.
    fn new(alloc: Global) -> RowText
        ensures of { IsOf result [] }
        ensures count { result.count ≡ 0 }
    {
        RowText {
            fields: Vec::new(alloc),
            count: 0,
        }
    }

    /// Returns the number of fields of the row.
    pub fn count(&self) -> usize
        ensures { (fields : List (List ℕ)) → IsOf self.now fields → result ≡ length fields }
    {
        self.count
    }

    /// Returns the field in the column with number `column`, from 0. A missing field is empty.
    pub fn field(&self, column: usize) -> &[u8]
        requires { column < 6 }
        ensures { (fields : List (List ℕ)) → IsOf self.now fields
            → result.now ≡ field fields column }
    {
        if column < self.fields.len() {
            self.fields[column].as_slice()
        } else {
            &[]
        }
    }

    // Adds a field, which is only counted if there are six fields already.
    fn add(&mut self, field: Vec<u8>) -> Result<(), AllocError>
        requires { self.old.count + 1 < 2 ^ 64 }
        ensures of { (fields : List (List ℕ)) → IsOf self.old fields
            → OnOk result (IsOf self.new (fields ++ field.items ∷ [])) }
        ensures count { OnOk result (self.new.count ≡ self.old.count + 1) }
    {
        self.count += 1;
        if self.fields.len() >= COLUMNS {
            drop(field);
            return Ok(());
        }
        self.fields.push(field)?;
        Ok(())
    }
}

// The progress of reading a row: the position, the current field, and the fields before it.
#[derive(Drop)]
struct RowReader {
    alloc: Global,
    place: Place,
    field: Vec<u8>,
    row: RowText,
}

impl RowReader {
    fn new(alloc: Global) -> RowReader
        ensures reading { (text : List ℕ) → IsReading text result text }
        ensures count { result.row.count ≡ 0 }
    {
        RowReader {
            alloc,
            place: Place::Between,
            field: Vec::new(alloc),
            row: RowText::new(alloc),
        }
    }

    // Reads the next byte. Returns `true` if it ends the row.
    fn take(&mut self, byte: u8) -> Result<bool, AllocError>
        requires { self.old.row.count + 1 < 2 ^ 64 }
        ensures read { (text rest : List ℕ) → IsReading text self.old (byte ∷ rest)
            → IfOk result (λ ended. MatchBool ended (IsOf self.new.row (first_row text))
            (IsReading text self.new rest)) }
        ensures count { OnOk result (self.new.row.count ≤ self.old.row.count + 1) }
    {
        let (next, effect) = step(self.place, byte);
        self.place = next;
        match effect {
            Effect::Skip => Ok(false),
            Effect::Keep => {
                self.field.push(byte)?;
                Ok(false)
            }
            Effect::EndField => {
                self.end_field()?;
                Ok(false)
            }
            Effect::EndRow => {
                self.end_field()?;
                Ok(true)
            }
        }
    }

    // Adds the current field to the row.
    fn end_field(&mut self) -> Result<(), AllocError>
        requires { self.old.row.count + 1 < 2 ^ 64 }
        ensures of { (fields : List (List ℕ)) → IsOf self.old.row fields
            → OnOk result (IsOf self.new.row (fields ++ self.old.field.items ∷ [])) }
        ensures count { OnOk result (self.new.row.count ≡ self.old.row.count + 1) }
        ensures field { self.new.field.items ≡ [] }
        ensures place { self.new.place ≡ self.old.place }
    {
        let field = mem::replace(&mut self.field, Vec::new(self.alloc));
        self.row.add(field)
    }

    // Returns the fields that were added.
    fn into_row(self) -> RowText
        ensures { result ≡ self.row }
    {
        let RowReader {
            alloc: _,
            place: _,
            field: _,
            row,
        } = self;
        row
    }

    // Returns the row, which the end of the file ends, or no fields if no row has begun.
    fn finish(self) -> Result<RowText, AllocError>
        requires { self.row.count + 1 < 2 ^ 64 }
        ensures { (text : List ℕ) → IsReading text self []
            → IfOk result (λ row. IsOf row (first_row text)) }
    {
        let RowReader {
            alloc,
            place,
            field,
            mut row,
        } = self;
        if !is_in_row(place) {
            drop(field);
            drop(row);
            return Ok(RowText::new(alloc));
        }
        row.add(field)?;
        Ok(row)
    }
}

/// Returns the first six fields of the row at the start of `text`, and the number of its fields. If
/// `text` has no row, there are no fields.
///
/// # Errors
///
/// Returns `AllocError` if an allocation fails.
pub(crate) fn read_row(alloc: Global, text: &[u8]) -> Result<RowText, AllocError>
    ensures { IfOk result (λ row. IsOf row (first_row text.now)) }
{
    let mut reader = RowReader::new(alloc);
    for byte in text {
        if reader.take(*byte)? {
            return Ok(reader.into_row());
        }
    }
    reader.finish()
}
