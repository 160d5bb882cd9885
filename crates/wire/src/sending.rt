//! Makes the messages that a machine's feeder sends: a head, and compact JSON (RFC 8259) or a batch
//! file.
ghost use Rattle.std.specs.Prelude.{◌≡◌, ◌≤◌, ◌<◌, ◌^◌, IfOk, OnOk, string_bytes};
ghost use Rattle.serde_json.specs.View.{view};
ghost use Rattle.job_facts.specs.Sound.{IsName};
ghost use Rattle.job_facts.specs.declared.request.Call.{Call as CallValue};
ghost use Rattle.wire.specs.Sending.{AreNames, Arrives, IsMessageOf, IsNoImport, IsSendable};
ghost use Rattle.wire.specs.Sending.{record_request, sending_of};
ghost use Rattle.wire.specs.Sending.{value_of, word_text};

use arrivals::name_text;
use http_requests::{import_text, job_text};
use job_facts::{Call, Lot, Request};
use serde_json::{Value, json};
use std::alloc::{AllocError, Global};
use store_data::{Bytes, Name, Product, laws};

/// Returns the message, head and body, with which `client` sends `call` under the request number
/// `number`, 1 to 999,999,999,999,999,999.
///
/// # Errors
///
/// Returns `AllocError` if an allocation fails.
pub fn request_text(
    alloc: Global,
    client: &Name,
    number: u64,
    call: &Call,
) -> Result<Bytes, AllocError>
    requires least { 1 ≤ number }
    requires most { number < 10 ^ 18 }
    requires sendable { IsSendable call.now }
    ensures text { IfOk result (λ text. text ≡ sending_of client.now number call.now) }
    ensures arrives { IfOk result (λ text. Arrives text client.now number call.now) }
{
    match call {
        Call::Job { request } => job_message(alloc, client, number, request),
        Call::Release { upto } => {
            let value = release_value(alloc, *upto)?;
            json_message(alloc, client, number, &value)
        }
    }
}

// Makes the message of a request of the reference model, which is a batch file or JSON.
fn job_message(
    alloc: Global,
    client: &Name,
    number: u64,
    request: &Request,
) -> Result<Bytes, AllocError>
    requires least { 1 ≤ number }
    requires most { number < 10 ^ 18 }
    requires sendable { IsSendable (Call.Job request.now) }
    ensures { IfOk result (IsMessageOf client.now number (Call.Job request.now)) }
{
    match request {
        Request::Import {
            batch,
            product,
            raw,
        } => import_text(alloc, client, number, batch, product, raw.as_slice()),
        _ => {
            let value = job_value(alloc, request)?;
            json_message(alloc, client, number, &value)
        }
    }
}

// Makes the message of a request with the JSON value `value`.
fn json_message(
    alloc: Global,
    client: &Name,
    number: u64,
    value: &Value,
) -> Result<Bytes, AllocError>
    requires least { 1 ≤ number }
    requires most { number < 10 ^ 18 }
    ensures { (call : CallValue) → view value.now ≡ value_of call → AreNames call
        → IsSendable call → IsNoImport call → IfOk result (IsMessageOf client.now number call) }
{
    let body = value.to_string(alloc)?;
    job_text(alloc, client, number, body.as_bytes())
}

fn release_value(alloc: Global, upto: u64) -> Result<Value, AllocError>
    ensures { IfOk result (λ v. view v ≡ value_of (Call.Release upto)) }
{
    json!(in alloc; {"do": "release", "upto": upto})
}

// Returns the JSON value of a request. An import has no JSON, so its value is null.
fn job_value(alloc: Global, request: &Request) -> Result<Value, AllocError>
    ensures value { IfOk result (λ v. view v ≡ value_of (Call.Job request.now)) }
    ensures names { OnOk result (AreNames (Call.Job request.now)) }
{
    match request {
        Request::Product { product } => product_value(alloc, product),
        Request::Lot { lot } => lot_value(alloc, lot),
        Request::Import { .. } => Ok(Value::Null),
        Request::Open { batch, blank } => open_value(alloc, batch, *blank),
        Request::Answer { session, index, sw } => answer_value(alloc, *session, *index, *sw),
        Request::Abort { session } => { json!(in alloc; {"do": "abort", "session": *session}) }
        Request::Reset => { json!(in alloc; {"do": "reset"}) }
        Request::Discard { blank } => { json!(in alloc; {"blank": *blank, "do": "discard"}) }
        Request::Remake { batch, rec } => record_value(alloc, batch, "remake", rec),
        Request::Withdraw { batch, rec } => record_value(alloc, batch, "withdraw", rec),
        Request::Close { batch } => close_value(alloc, batch),
    }
}

fn product_value(alloc: Global, product: &Product) -> Result<Value, AllocError>
    ensures value { IfOk result (λ v. view v ≡ value_of (Call.Job (Request.Product product.now))) }
    ensures name { OnOk result (IsName product.now.code) }
{
    json!(in alloc; {
        "check": product.check,
        "do": "product",
        "low": product.low,
        "max": product.max,
        "product": text(&product.code)
    })
}

fn lot_value(alloc: Global, lot: &Lot) -> Result<Value, AllocError>
    ensures value { IfOk result (λ v. view v ≡ value_of (Call.Job (Request.Lot lot.now))) }
    ensures names { OnOk result (IsName lot.now.name × IsName lot.now.product) }
{
    json!(in alloc; {
        "count": lot.count,
        "do": "lot",
        "first": lot.first,
        "lot": text(&lot.name),
        "product": text(&lot.product)
    })
}

fn open_value(alloc: Global, batch: &Name, blank: u64) -> Result<Value, AllocError>
    ensures value { IfOk result (λ v. view v ≡ value_of (Call.Job (Request.Open batch.now blank))) }
    ensures name { OnOk result (IsName batch.now) }
{
    json!(in alloc; {"batch": text(batch), "blank": blank, "do": "open"})
}

fn answer_value(alloc: Global, session: u64, index: u32, sw: u16) -> Result<Value, AllocError>
    ensures { IfOk result (λ v. view v ≡ value_of (Call.Job (Request.Answer session index sw))) }
{
    json!(in alloc; {
        "do": "answer",
        "index": index,
        "session": session,
        "sw": word_text(alloc, sw)?
    })
}

// Returns `sw` as four hexadecimal digits in upper case.
fn word_text(alloc: Global, sw: u16) -> Result<String, AllocError>
    ensures { IfOk result (λ text. string_bytes text ≡ word_text sw) }
{
    hex::encode_upper(alloc, sw.to_be_bytes())
}

fn record_value(alloc: Global, batch: &Name, word: &str, rec: &Name) -> Result<Value, AllocError>
    ensures value { IfOk result (λ v. view v ≡ record_request batch.now word.now rec.now) }
    ensures names { OnOk result (IsName batch.now × IsName rec.now) }
{
    json!(in alloc; {"batch": text(batch), "do": word, "record": text(rec)})
}

fn close_value(alloc: Global, batch: &Name) -> Result<Value, AllocError>
    ensures value { IfOk result (λ v. view v ≡ value_of (Call.Job (Request.Close batch.now))) }
    ensures name { OnOk result (IsName batch.now) }
{
    json!(in alloc; {"batch": text(batch), "do": "close"})
}

// Returns a name as it appears in JSON.
fn text(name: &Name) -> &str
    ensures text { result.now ≡ name.now }
    ensures name { IsName name.now }
{
    laws::is_a_name(name);
    name_text(name)
}
