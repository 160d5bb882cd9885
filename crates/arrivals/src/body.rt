//! Writes replies as compact JSON (RFC 8259), with the members sorted by name.
ghost use Rattle.std.specs.Prelude.{◌≡◌, IfOk, string_bytes};
ghost use Rattle.hex.specs.Hex.{encode_upper};
ghost use Rattle.json.specs.Print.{escape};
ghost use Rattle.serde_json.specs.View.{view};
ghost use Rattle.arrivals.specs.HttpReplies.{body_of, status_of};
ghost use Rattle.arrivals.specs.Values.{IsPlain, ended_value, made_name, record_value, value_of};

use batch_import::RowFault;
use job_facts::{MACHINE_BUSY, Made, NUMBER_RELEASED, Refusal, Reply};
use serde_json::{Value, json};
use std::alloc::{AllocError, Global};
use store_data::{Bytes, Name};

/// Returns the HTTP status of `reply`: 200 if the request was accepted, 409 if it was refused (this
/// project's profile).
pub fn status_of(reply: &Reply) -> u16
    ensures { result ≡ status_of reply.now }
{
    match *reply {
        Reply::Refused { .. }
        | Reply::Busy { .. }
        | Reply::NumberReleased { .. }
        | Reply::Faulty { .. } => 409,
        _ => 200,
    }
}

/// Returns the body of the response with `reply`: compact JSON (RFC 8259) with the members sorted
/// by name (this project's profile).
///
/// # Errors
///
/// Returns `AllocError` if an allocation fails.
pub fn body_of(alloc: Global, reply: &Reply) -> Result<Bytes, AllocError>
    ensures { IfOk result (λ body. body ≡ body_of reply.now) }
{
    let text = value_of(alloc, reply)?.to_string(alloc)?;
    Ok(Bytes::from_vec(text.into_bytes()))
}

fn value_of(alloc: Global, reply: &Reply) -> Result<Value, AllocError>
    ensures { IfOk result (λ v. view v ≡ value_of reply.now) }
{
    match reply {
        Reply::Product { product, made } => product_value(alloc, product, *made),
        Reply::Lot { lot, made } => lot_value(alloc, lot, *made),
        Reply::Import {
            batch,
            records,
            made,
            rows,
        } => import_value(alloc, batch, *records, *made, *rows),
        Reply::Opened {
            batch,
            blank,
            command,
            rec,
            session,
        } => opened_value(alloc, batch, *blank, command.as_slice(), rec, *session),
        Reply::Next {
            command,
            index,
            session,
        } => next_value(alloc, command.as_slice(), *index, *session),
        Reply::Good { session } => ended_value(alloc, "good", *session),
        Reply::Spoiled { session } => ended_value(alloc, "spoiled", *session),
        Reply::Reset { session } => ended_value(alloc, "reset", *session),
        Reply::Discarded { blank } => { json!(in alloc; {"blank": *blank, "result": "discarded"}) }
        Reply::Waiting { batch, rec } => record_value(alloc, batch, rec, "waiting"),
        Reply::Withdrawn { batch, rec } => record_value(alloc, batch, rec, "withdrawn"),
        Reply::Closed { batch } => closed_value(alloc, batch),
        Reply::Refused { refusal } => refused_value(alloc, *refusal),
        Reply::Busy { session } => busy_value(alloc, *session),
        Reply::Released { mark } => { json!(in alloc; {"mark": *mark, "result": "released"}) }
        Reply::NumberReleased { mark } => number_released_value(alloc, *mark),
        Reply::Faulty { fault } => faulty_value(alloc, *fault),
    }
}

// Returns the word for `made` in replies.
fn made_name(made: Made) -> &'static str
    ensures { result.now ≡ made_name made }
{
    match made {
        Made::Created => "created",
        Made::Known => "known",
    }
}

fn product_value(alloc: Global, product: &Name, made: Made) -> Result<Value, AllocError>
    ensures { IfOk result (λ v. view v ≡ value_of (Reply.Product product.now made)) }
{
    json!(in alloc; {"product": name_text(product), "result": made_name(made)})
}

fn lot_value(alloc: Global, lot: &Name, made: Made) -> Result<Value, AllocError>
    ensures { IfOk result (λ v. view v ≡ value_of (Reply.Lot lot.now made)) }
{
    json!(in alloc; {"lot": name_text(lot), "result": made_name(made)})
}

fn import_value(
    alloc: Global,
    batch: &Name,
    records: u32,
    made: Made,
    rows: u32,
) -> Result<Value, AllocError>
    ensures { IfOk result
        (λ v. view v ≡ value_of (Reply.Import batch.now records made rows)) }
{
    json!(in alloc; {
        "batch": name_text(batch),
        "records": records,
        "result": made_name(made),
        "rows": rows
    })
}

fn opened_value(
    alloc: Global,
    batch: &Name,
    blank: u64,
    command: &[u8],
    rec: &Name,
    session: u64,
) -> Result<Value, AllocError>
    ensures { IfOk result
        (λ v. view v ≡ value_of (Reply.Opened batch.now blank command.now rec.now session)) }
{
    json!(in alloc; {
        "batch": name_text(batch),
        "blank": blank,
        "command": hex_of(alloc, command)?,
        "index": 0u64,
        "record": name_text(rec),
        "result": "command",
        "session": session
    })
}

fn next_value(alloc: Global, command: &[u8], index: u64, session: u64) -> Result<Value, AllocError>
    ensures { IfOk result (λ v. view v ≡ value_of (Reply.Next command.now index session)) }
{
    json!(in alloc; {
        "command": hex_of(alloc, command)?,
        "index": index,
        "result": "command",
        "session": session
    })
}

fn ended_value(alloc: Global, end: &str, session: u64) -> Result<Value, AllocError>
    ensures { IfOk result (λ v. view v ≡ ended_value end.now session) }
{
    json!(in alloc; {"result": end, "session": session})
}

fn record_value(alloc: Global, batch: &Name, rec: &Name, end: &str) -> Result<Value, AllocError>
    ensures { IfOk result (λ v. view v ≡ record_value batch.now rec.now end.now) }
{
    json!(in alloc; {"batch": name_text(batch), "record": name_text(rec), "result": end})
}

fn closed_value(alloc: Global, batch: &Name) -> Result<Value, AllocError>
    ensures { IfOk result (λ v. view v ≡ value_of (Reply.Closed batch.now)) }
{
    json!(in alloc; {"batch": name_text(batch), "result": "closed"})
}

fn refused_value(alloc: Global, refusal: Refusal) -> Result<Value, AllocError>
    ensures { IfOk result (λ v. view v ≡ value_of (Reply.Refused refusal)) }
{
    json!(in alloc; {"code": refusal.code(), "refused": refusal.name()})
}

fn busy_value(alloc: Global, session: u64) -> Result<Value, AllocError>
    ensures { IfOk result (λ v. view v ≡ value_of (Reply.Busy session)) }
{
    json!(in alloc; {"code": MACHINE_BUSY, "refused": "machine-busy", "session": session})
}

fn number_released_value(alloc: Global, mark: u64) -> Result<Value, AllocError>
    ensures { IfOk result (λ v. view v ≡ value_of (Reply.NumberReleased mark)) }
{
    json!(in alloc; {"code": NUMBER_RELEASED, "mark": mark, "refused": "number-released"})
}

fn faulty_value(alloc: Global, fault: RowFault) -> Result<Value, AllocError>
    ensures { IfOk result (λ v. view v ≡ value_of (Reply.Faulty fault)) }
{
    json!(in alloc; {
        "code": fault.kind.code(),
        "refused": fault.kind.name(),
        "row": fault.row
    })
}

/// Returns `name` as it appears in JSON. None of its characters is escaped (RFC 8259).
pub fn name_text(name: &Name) -> &str
    ensures text { result.now ≡ name.now }
    ensures plain { IsPlain name.now }
    ensures bare { escape name.now ≡ name.now }
{
    std::str::from_utf8(name.bytes()).unwrap()
}

// Returns `bytes` in upper-case hexadecimal.
fn hex_of(alloc: Global, bytes: &[u8]) -> Result<String, AllocError>
    ensures { IfOk result (λ text. string_bytes text ≡ encode_upper bytes.now) }
{
    hex::encode_upper(alloc, bytes)
}
