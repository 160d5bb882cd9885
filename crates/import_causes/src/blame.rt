//! Finds the field and the cause of a fault.
ghost use Rattle.std.specs.Prelude.{◌≡◌, ℕ, List, length, nat_lt, IfOk};
ghost use Rattle.std.specs.Prelude.{if◌then◌else◌};
ghost use Rattle.std.specs.List.{list_all};
ghost use Rattle.std.specs.Char.{is_ascii_digit};
ghost use Rattle.batch_import.specs.Fields.{field, three_marks};
ghost use Rattle.import_causes.specs.Causes.{aid_cause, at_field, at_row, blame_of, cause_of_dgi};
ghost use Rattle.import_causes.specs.Causes.{column_blame, count_cause, differ_blame};
ghost use Rattle.import_causes.specs.Causes.{grouping_cause, header_blame, mark_blame, name_cause};
ghost use Rattle.import_causes.specs.Causes.{marks_blame, rank_cause};
ghost use Rattle.import_causes.specs.RowTexts.{IsOf};

use crate::cause::Cause;
use crate::fields::RowText;
use crate::pair::NumberedRow;
use batch_import::Kind;
use dgi::{DgiFault, from_hex_text};
use hex::FromHexError;
use std::alloc::{AllocError, Global};
use store_data::Summary;

/// The field and the cause of a fault.
#[derive(Clone, Copy, Debug, PartialEq, Eq)]
pub struct Blame {
    /// The number of the field, 1 to 6, if the fault is in one field.
    pub field: Option<u8>,
    /// The cause, if the number of the fault stands for several.
    pub cause: Option<Cause>,
}

/// Returns the field and the cause of a fault of the row `row`, or of the rows `two` of its record.
///
/// # Errors
///
/// Returns `AllocError` if an allocation fails.
pub(crate) fn blame_of(
    alloc: Global,
    kind: Kind,
    row: &RowText,
    two: Option<(NumberedRow, NumberedRow)>,
) -> Result<Blame, AllocError>
    ensures { (fields : List (List ℕ)) → IsOf row.now fields
        → IfOk result (λ blame. blame ≡ blame_of kind fields two) }
{
    match kind {
        Kind::MarksDiffer => Ok(marks_blame(two)),
        Kind::NotSixFields => Ok(at_row(Some(count_cause(row.count())))),
        Kind::Header => Ok(header_blame(row)),
        Kind::RecordName => Ok(at_field(1, Some(name_cause(row.field(0))))),
        Kind::Aid => Ok(at_field(2, Some(aid_cause(alloc, row.field(1))?))),
        Kind::Rank => Ok(at_field(3, Some(rank_cause(row.field(2))))),
        Kind::Mark => Ok(mark_blame(row.field(3))),
        Kind::Grouping => Ok(at_field(6, grouping_cause(alloc, row.field(5))?)),
        Kind::NotARecord | Kind::IdentifierTwice => Ok(at_field(6, None)),
        Kind::TooManyBlocks | Kind::TooManyRows | Kind::TooManyRecords | Kind::NoRows => {
            Ok(at_row(None))
        }
    }
}

fn at_field(number: u8, cause: Option<Cause>) -> Blame
    ensures { result ≡ at_field number cause }
{
    Blame {
        field: Some(number),
        cause,
    }
}

fn at_row(cause: Option<Cause>) -> Blame
    ensures { result ≡ at_row cause }
{
    Blame { field: None, cause }
}

// Fault 21: the first field in which the two rows differ.
fn marks_blame(two: Option<(NumberedRow, NumberedRow)>) -> Blame
    ensures { result ≡ marks_blame two }
{
    match two {
        Some((one, other)) => differ_blame(&one.1, &other.1),
        None => at_row(None),
    }
}

fn differ_blame(one: &Summary, other: &Summary) -> Blame
    ensures { result ≡ differ_blame one.now other.now }
{
    if one.enc == other.enc {
        at_field(5, Some(Cause::Tol))
    } else {
        at_field(4, Some(Cause::Enc))
    }
}

fn count_cause(count: usize) -> Cause
    ensures { result ≡ count_cause count }
{
    if count < 6 {
        Cause::FewFields
    } else {
        Cause::ManyFields
    }
}

fn header_blame(row: &RowText) -> Blame
    ensures { (fields : List (List ℕ)) → IsOf row.now fields → result ≡ header_blame fields }
{
    if row.count() == 0 {
        at_row(Some(Cause::NoRows))
    } else {
        column_blame(row)
    }
}

// Fault 31: the first field that isn't the name of its column.
fn column_blame(row: &RowText) -> Blame
    ensures { (fields : List (List ℕ)) → IsOf row.now fields → result ≡ column_blame fields }
{
    if row.field(0) != b"record".as_slice() {
        at_field(1, Some(Cause::ColumnName))
    } else if row.field(1) != b"aid".as_slice() {
        at_field(2, Some(Cause::ColumnName))
    } else if row.field(2) != b"rank".as_slice() {
        at_field(3, Some(Cause::ColumnName))
    } else if row.field(3) != b"enc".as_slice() {
        at_field(4, Some(Cause::ColumnName))
    } else if row.field(4) != b"tol".as_slice() {
        at_field(5, Some(Cause::ColumnName))
    } else if row.field(5) != b"dgi".as_slice() {
        at_field(6, Some(Cause::ColumnName))
    } else {
        at_row(None)
    }
}

fn name_cause(text: &[u8]) -> Cause
    ensures { result ≡ name_cause text.now }
{
    if text.is_empty() {
        Cause::Empty
    } else if text.len() > 32 {
        Cause::Long
    } else {
        Cause::Character
    }
}

fn aid_cause(alloc: Global, text: &[u8]) -> Result<Cause, AllocError>
    ensures { IfOk result (λ cause. cause ≡ aid_cause text.now) }
{
    match hex::decode(alloc, text) {
        Ok(bytes) => Ok(size_cause(bytes.as_slice())),
        Err(FromHexError::OutOfMemory) => Err(AllocError),
        Err(_) => Ok(Cause::NotHex),
    }
}

fn size_cause(aid: &[u8]) -> Cause
    ensures { result ≡ (if nat_lt (length aid.now) 5 then Cause.Short else Cause.Long) }
{
    if aid.len() < 5 {
        Cause::Short
    } else {
        Cause::Long
    }
}

fn rank_cause(text: &[u8]) -> Cause
    ensures { result ≡ rank_cause text.now }
{
    if text.is_empty() {
        Cause::Empty
    } else if !are_digits(text) {
        Cause::NotDecimal
    } else if text.len() > 3 {
        Cause::Long
    } else {
        Cause::Zero
    }
}

fn are_digits(text: &[u8]) -> bool
    ensures { result ≡ list_all is_ascii_digit text.now }
{
    text.iter().all(|c| c.is_ascii_digit())
}

// Fault 35: field 4 if it is invalid, and otherwise field 5.
#[tactic(auto, unfolding(batch_import::specs::Fields::three_marks))]
fn mark_blame(enc: &[u8]) -> Blame
    ensures { result ≡ mark_blame enc.now }
{
    match enc {
        b"0" => at_field(5, Some(Cause::Tol)),
        b"1" => at_field(5, Some(Cause::Tol)),
        b"2" => at_field(5, Some(Cause::Tol)),
        _ => at_field(4, Some(Cause::Enc)),
    }
}

// Fault 36: the first fault of the text of a data grouping (EMV CPS 1.1).
fn grouping_cause(alloc: Global, text: &[u8]) -> Result<Option<Cause>, AllocError>
    ensures { IfOk result (λ cause. cause ≡ grouping_cause text.now) }
{
    match from_hex_text(alloc, text) {
        Ok(_) => Ok(None),
        Err(DgiFault::Memory) => Err(AllocError),
        Err(fault) => Ok(cause_of_dgi(fault)),
    }
}

fn cause_of_dgi(fault: DgiFault) -> Option<Cause>
    ensures { result ≡ cause_of_dgi fault }
{
    match fault {
        DgiFault::NotHex => Some(Cause::NotHex),
        DgiFault::ShortIdentifier => Some(Cause::ShortIdentifier),
        DgiFault::ShortLength => Some(Cause::ShortLength),
        DgiFault::LongBody => Some(Cause::LongData),
        DgiFault::ShortBody => Some(Cause::ShortData),
        DgiFault::Trailing => Some(Cause::Trailing),
        DgiFault::Memory => None,
    }
}
