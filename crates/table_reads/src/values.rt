//! The values in a row of a query.
ghost use Rattle.std.specs.Prelude.{◌≡◌, ◌↔◌, ◌<◌, ◌^◌, false, IsTrue, MatchResult};
ghost use Rattle.sqlite.specs.Order.{column};
ghost use Rattle.sqlite.specs.State.{is_disk_error};
ghost use Rattle.sqlite.specs.Value.{owned};
ghost use Rattle.sql_rows.specs.Decoding.{bytes_in, number_in};
ghost use Rattle.sql_rows.specs.Encoding.{enc_code, flag, record_code, session_code};
ghost use Rattle.table_reads.specs.Shown.{IsBelow, IsBlob, IsNumber, IsText};

use job_facts::{RecordState, SessionState};
use sqlite::types::ValueRef;
use sqlite::{Error, Row};
use std::alloc::Global;
use store_data::Enc;

// Returns the value of column `at`, or NULL if the row has no such column.
pub(crate) fn value_at(row: &Row, at: usize) -> ValueRef<'_>
    ensures { owned result ≡ column row.now at }
{
    match row.get_ref(at) {
        Ok(value) => value,
        Err(_) => ValueRef::Null,
    }
}

// ---- shapes

// Returns `true` if column `at` contains an integer of at least 0.
pub(crate) fn is_number(row: &Row, at: usize) -> bool
    ensures { IsTrue result ↔ IsNumber (column row.now at) }
{
    match value_at(row, at) {
        ValueRef::Int(n) => n >= 0,
        _ => false,
    }
}

// Returns `true` if column `at` contains an integer from 0 to `limit` - 1.
pub(crate) fn is_below(row: &Row, at: usize, limit: u64) -> bool
    ensures { IsTrue result ↔ IsBelow limit (column row.now at) }
{
    is_number(row, at) && number_at(row, at) < limit
}

// Returns `true` if column `at` contains a text.
pub(crate) fn is_text(row: &Row, at: usize) -> bool
    ensures { IsTrue result ↔ IsText (column row.now at) }
{
    match value_at(row, at) {
        ValueRef::Text(_) => true,
        _ => false,
    }
}

// Returns `true` if column `at` contains a blob.
pub(crate) fn is_blob(row: &Row, at: usize) -> bool
    ensures { IsTrue result ↔ IsBlob (column row.now at) }
{
    match value_at(row, at) {
        ValueRef::Blob(_) => true,
        _ => false,
    }
}

// ---- values

// Returns the number in column `at`, or 0 if it isn't an integer of at least 0.
pub(crate) fn number_at(row: &Row, at: usize) -> u64
    ensures { result ≡ number_in (column row.now at) }
{
    match value_at(row, at) {
        ValueRef::Int(n) => { if n < 0 { 0 } else { n as u64 } }
        _ => 0,
    }
}

// Returns the number in column `at`, which is below 2^8.
pub(crate) fn byte_at(row: &Row, at: usize) -> u8
    ensures { number_in (column row.now at) < 256 → result ≡ number_in (column row.now at) }
{
    let n = number_at(row, at);
    if n < 256 { n as u8 } else { 0 }
}

// Returns the number in column `at`, which is below 2^16.
pub(crate) fn short_at(row: &Row, at: usize) -> u16
    ensures { number_in (column row.now at) < 65536 → result ≡ number_in (column row.now at) }
{
    let n = number_at(row, at);
    if n < 65_536 { n as u16 } else { 0 }
}

// Returns the number in column `at`, which is below 2^32.
pub(crate) fn long_at(row: &Row, at: usize) -> u32
    ensures { number_in (column row.now at) < 2 ^ 32 → result ≡ number_in (column row.now at) }
{
    let n = number_at(row, at);
    if n < 4_294_967_296 { n as u32 } else { 0 }
}

// Returns the flag for the number in column `at`.
pub(crate) fn flag_at(row: &Row, at: usize) -> bool
    ensures { number_in (column row.now at) < 2 → flag result ≡ number_in (column row.now at) }
{
    match number_at(row, at) {
        0 => false,
        _ => true,
    }
}

// Returns the record state for the number in column `at`.
pub(crate) fn record_state_at(row: &Row, at: usize) -> RecordState
    ensures { number_in (column row.now at) < 5
        → record_code result ≡ number_in (column row.now at) }
{
    match number_at(row, at) {
        0 => RecordState::Waiting,
        1 => RecordState::Running,
        2 => RecordState::Failed,
        3 => RecordState::Withdrawn,
        _ => RecordState::Good,
    }
}

// Returns the session state for the number in column `at`.
pub(crate) fn session_state_at(row: &Row, at: usize) -> SessionState
    ensures { number_in (column row.now at) < 3
        → session_code result ≡ number_in (column row.now at) }
{
    match number_at(row, at) {
        0 => SessionState::Running,
        1 => SessionState::Good,
        _ => SessionState::Spoiled,
    }
}

// Returns the encryption for the number in column `at`.
pub(crate) fn enc_at(row: &Row, at: usize) -> Enc
    ensures { number_in (column row.now at) < 3 → enc_code result ≡ number_in (column row.now at) }
{
    match number_at(row, at) {
        0 => Enc::Plain,
        1 => Enc::All,
        _ => Enc::Mixed,
    }
}

fn bytes_of(alloc: Global, value: ValueRef<'_>) -> Result<Vec<u8>, Error>
    ensures { MatchResult result (λ bytes. bytes.items ≡ bytes_in (owned value.entry))
        (λ e. is_disk_error e ≡ false) }
{
    match value {
        ValueRef::Text(bytes) => Ok(bytes.to_vec(alloc)?),
        ValueRef::Blob(bytes) => Ok(bytes.to_vec(alloc)?),
        _ => Ok(Vec::new(alloc)),
    }
}

// Returns the bytes in column `at`, or no bytes if it is neither a text nor a blob. An error is
// never a disk error.
pub(crate) fn bytes_at(alloc: Global, row: &Row, at: usize) -> Result<Vec<u8>, Error>
    ensures { MatchResult result (λ bytes. bytes.items ≡ bytes_in (column row.now at))
        (λ e. is_disk_error e ≡ false) }
{
    bytes_of(alloc, value_at(row, at))
}
