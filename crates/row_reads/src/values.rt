//! Converts the values of columns.
//!
//! The functions return `InvalidQuery` if a value has another type or is out of range.
ghost use Rattle.std.specs.Prelude.{◌≡◌, ◌<◌, ◌≤◌, ◌^◌, length, All, IfOk, IsOk, IsTrue};
ghost use Rattle.sqlite.specs.Order.{column};
ghost use Rattle.sql_rows.specs.Decoding.{enc_of_code, flag_in, number_in, record_state_of_code};
ghost use Rattle.sql_rows.specs.Decoding.{session_state_of_code};
ghost use Rattle.row_reads.specs.Decoding.{IsAny, IsNumber, blob_in, first_number, has_rows};
ghost use Rattle.row_reads.specs.Decoding.{id_in, name_in, text_in};
ghost use Rattle.row_reads.specs.Readable.{FailsForMemory, IsBelow, IsBlob, IsIdAnswer, IsIn};
ghost use Rattle.row_reads.specs.Readable.{IsNameAnswer, IsNameText, IsWhole};
ghost use Rattle.store_data.specs.Name.{is_name};

use crate::answered::{Answered, first};
use job_facts::{RecordState, SessionState};
use sqlite::types::ValueRef;
use sqlite::{Error, Row};
use store_data::{Bytes, Enc, Name};

// Converts `text` to a name.
fn name_of(text: &[u8]) -> Result<Name, Error>
    ensures value { IfOk result (λ name. name ≡ text.now) }
    ensures total { IsTrue (is_name text.now) → IsOk result }
{
    Name::new(text).ok_or(Error::InvalidQuery)
}

// Returns the name in column `at`.
pub(crate) fn name_at(row: &Row, at: usize) -> Result<Name, Error>
    ensures value { IfOk result (λ name. name ≡ text_in (column row.now at)) }
    ensures total { IsNameText (column row.now at) → IsOk result }
{
    match row.get_ref(at)? {
        ValueRef::Text(text) => name_of(text),
        _ => Err(Error::InvalidQuery),
    }
}

// Returns the bytes in column `at`.
pub(crate) fn bytes_at(row: &Row, at: usize) -> Result<Bytes, Error>
    ensures value { IfOk result (λ bytes. bytes ≡ blob_in (column row.now at)) }
    ensures total { IsBlob (column row.now at) → FailsForMemory result }
{
    let items: Vec<u8> = row.get(at)?;
    Ok(Bytes::from_vec(items))
}

// Returns the number in column `at`, which must not be negative.
pub(crate) fn number_at(row: &Row, at: usize) -> Result<u64, Error>
    ensures value { IfOk result (λ n. n ≡ number_in (column row.now at)) }
    ensures ranged { IfOk result (λ n. n < 2 ^ 63) }
    ensures total { IsWhole (column row.now at) → IsOk result }
{
    match row.get_ref(at)? {
        ValueRef::Int(number) => u64::try_from(number).map_err(|_| Error::InvalidQuery),
        _ => Err(Error::InvalidQuery),
    }
}

// Returns the number in column `at`, which must be below 2^32.
pub(crate) fn long_at(row: &Row, at: usize) -> Result<u32, Error>
    ensures value { IfOk result (λ n. n ≡ number_in (column row.now at)) }
    ensures total { IsBelow (2 ^ 32) (column row.now at) → IsOk result }
{
    u32::try_from(number_at(row, at)?).map_err(|_| Error::InvalidQuery)
}

// Returns the flag in column `at`, which must be 0 or 1.
pub(crate) fn flag_at(row: &Row, at: usize) -> Result<bool, Error>
    ensures value { IfOk result (λ b. b ≡ flag_in (column row.now at)) }
    ensures total { IsBelow 2 (column row.now at) → IsOk result }
{
    match row.get_ref(at)? {
        ValueRef::Int(0) => Ok(false),
        ValueRef::Int(1) => Ok(true),
        _ => Err(Error::InvalidQuery),
    }
}

// Returns the number in column `at`, which must be between `least` and `most`.
pub(crate) fn within_at(row: &Row, at: usize, least: u32, most: u32) -> Result<u32, Error>
    ensures value { IfOk result (λ n. n ≡ number_in (column row.now at)) }
    ensures least { IfOk result (λ n. least ≤ n) }
    ensures most { IfOk result (λ n. n ≤ most) }
    ensures total { IsIn least most (column row.now at) → IsOk result }
{
    let n = long_at(row, at)?;
    if n < least || n > most {
        return Err(Error::InvalidQuery);
    }
    Ok(n)
}

// ---- codes

// Returns the encryption with the code `code`.
pub(crate) fn enc_of(code: u64) -> Result<Enc, Error>
    ensures value { IfOk result (λ enc. enc ≡ enc_of_code code) }
    ensures total { code < 3 → IsOk result }
{
    match code {
        0 => Ok(Enc::Plain),
        1 => Ok(Enc::All),
        2 => Ok(Enc::Mixed),
        _ => Err(Error::InvalidQuery),
    }
}

// Returns the record state with the code `code`.
pub(crate) fn record_state(code: u64) -> Result<RecordState, Error>
    ensures value { IfOk result (λ stands. stands ≡ record_state_of_code code) }
    ensures total { code < 5 → IsOk result }
{
    match code {
        0 => Ok(RecordState::Waiting),
        1 => Ok(RecordState::Running),
        2 => Ok(RecordState::Failed),
        3 => Ok(RecordState::Withdrawn),
        4 => Ok(RecordState::Good),
        _ => Err(Error::InvalidQuery),
    }
}

// Returns the session state with the code `code`.
pub(crate) fn session_state(code: u64) -> Result<SessionState, Error>
    ensures value { IfOk result (λ stands. stands ≡ session_state_of_code code) }
    ensures total { code < 3 → IsOk result }
{
    match code {
        0 => Ok(SessionState::Running),
        1 => Ok(SessionState::Good),
        2 => Ok(SessionState::Spoiled),
        _ => Err(Error::InvalidQuery),
    }
}

// ---- rows

// Reads an id from column 0.
impl Answered for u64 {
    ghost value = { id_in };

    ghost fits = { IsNumber };

    ghost readable = { IsIdAnswer };

    fn read(row: &Row) -> Result<u64, Error> {
        number_at(row, 0)
    }
}

// Reads a name from column 1, after an id.
impl Answered for Name {
    ghost value = { name_in };

    ghost fits = { IsAny };

    ghost readable = { IsNameAnswer };

    fn read(row: &Row) -> Result<Name, Error> {
        name_at(row, 1)
    }
}

// Returns the number in column 0 of the first row, or 0 if there are no rows.
pub(crate) fn first_number(rows: &[Row]) -> Result<u64, Error>
    ensures value { IfOk result (λ n. n ≡ first_number rows.now) }
    ensures ranged { IfOk result (λ n. n < 2 ^ 63) }
    ensures total { All IsIdAnswer rows.now → FailsForMemory result }
{
    Ok(first::<u64>(rows)?.unwrap_or(0))
}

pub(crate) fn has_rows(rows: &[Row]) -> bool
    ensures { result ≡ has_rows rows.now }
{
    !rows.is_empty()
}

pub(crate) fn count(rows: &[Row]) -> u64
    ensures { result ≡ length rows.now }
{
    rows.len() as u64
}
