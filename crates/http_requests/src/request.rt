//! Parses requests in JSON (RFC 8259).
ghost use Rattle.std.specs.Prelude.{◌≡◌, ◌<◌, ◌≤◌, ◌^◌, IfSome};
ghost use Rattle.job_facts.specs.Requests.{IsCall, IsRequest};
ghost use Rattle.serde_json.specs.View.{view};
ghost use Rattle.http_requests.specs.Requests.{abort_in, answer_in, call_by_word};
ghost use Rattle.http_requests.specs.Requests.{call_of_value};
ghost use Rattle.http_requests.specs.Requests.{close_in, count_in, discard_in, flag_at, release_in};
ghost use Rattle.http_requests.specs.Requests.{lot_in, number_within, open_in, product_in};
ghost use Rattle.http_requests.specs.Requests.{remake_in, request_by_word};
ghost use Rattle.http_requests.specs.Requests.{serial_at, session_in, withdraw_in, word_in};

use crate::members::{name_at, number_at, text_at};
use job_facts::{Call, Lot, Request};
use serde_json::Value;
use store_data::Product;
use text_io::status_word;

/// The largest serial, session number and request number (this project's profile).
pub(crate) const MOST_SERIAL: u64 = 999_999_999_999_999_999;

// ---- calls and their members

/// Returns the call in the value of a body, or `None` if it is invalid (this project's profile).
#[tactic(auto, unfolding(crate::specs::Requests::call_of_value))]
pub(crate) fn call_of_value(value: &Value) -> Option<Call>
    ensures value { result ≡ call_of_value (view value.now) }
    ensures ranged { IfSome result IsCall }
{
    let word = text_at(value, "do")?;
    let count = count_in(value)?;
    call_by_word(word, count, value)
}

#[tactic(auto, unfolding(crate::specs::Requests::call_by_word))]
fn call_by_word(word: &str, count: usize, value: &Value) -> Option<Call>
    ensures value { result ≡ call_by_word word.now count (view value.now) }
    ensures ranged { IfSome result IsCall }
{
    if word == "release" && count == 2 {
        return release_in(value);
    }
    let request = request_by_word(word, count, value)?;
    Some(Call::Job { request })
}

#[tactic(auto, unfolding(crate::specs::Requests::release_in))]
fn release_in(value: &Value) -> Option<Call>
    ensures value { result ≡ release_in (view value.now) }
    ensures ranged { IfSome result IsCall }
{
    let upto = number_within(value, "upto", 1, MOST_SERIAL)?;
    Some(Call::Release { upto })
}

// Returns the request with this `do` and this number of members. The number is compared, because an
// additional member makes a request invalid.
#[tactic(auto, unfolding(crate::specs::Requests::request_by_word))]
fn request_by_word(word: &str, count: usize, value: &Value) -> Option<Request>
    ensures value { result ≡ request_by_word word.now count (view value.now) }
    ensures ranged { IfSome result IsRequest }
{
    match (word, count) {
        ("product", 5) => product_in(value),
        ("lot", 5) => lot_in(value),
        ("open", 3) => open_in(value),
        ("answer", 4) => answer_in(value),
        ("abort", 2) => abort_in(value),
        ("reset", 1) => Some(Request::Reset),
        ("discard", 2) => discard_in(value),
        ("remake", 3) => remake_in(value),
        ("withdraw", 3) => withdraw_in(value),
        ("close", 2) => close_in(value),
        _ => None,
    }
}

#[tactic(auto, unfolding(crate::specs::Requests::product_in))]
fn product_in(value: &Value) -> Option<Request>
    ensures value { result ≡ product_in (view value.now) }
    ensures ranged { IfSome result IsRequest }
{
    let code = name_at(value, "product")?;
    let max = number_within(value, "max", 16, 255)?;
    let low = number_within(value, "low", 0, 31)?;
    let check = flag_at(value, "check")?;
    Some(Request::Product {
        product: Product {
            code,
            max: max as u8,
            low: low as u8,
            check,
        },
    })
}

#[tactic(auto, unfolding(crate::specs::Requests::lot_in))]
fn lot_in(value: &Value) -> Option<Request>
    ensures value { result ≡ lot_in (view value.now) }
    ensures ranged { IfSome result IsRequest }
{
    let name = name_at(value, "lot")?;
    let product = name_at(value, "product")?;
    let first = serial_at(value, "first")?;
    let count = number_within(value, "count", 1, 1_000_000)?;
    if first + count - 1 > MOST_SERIAL {
        return None;
    }
    Some(Request::Lot {
        lot: Lot {
            name,
            product,
            first,
            count: count as u32,
        },
    })
}

#[tactic(auto, unfolding(crate::specs::Requests::open_in))]
fn open_in(value: &Value) -> Option<Request>
    ensures value { result ≡ open_in (view value.now) }
    ensures ranged { IfSome result IsRequest }
{
    let batch = name_at(value, "batch")?;
    let blank = serial_at(value, "blank")?;
    Some(Request::Open { batch, blank })
}

#[tactic(auto, unfolding(crate::specs::Requests::answer_in))]
fn answer_in(value: &Value) -> Option<Request>
    ensures value { result ≡ answer_in (view value.now) }
    ensures ranged { IfSome result IsRequest }
{
    let session = session_in(value)?;
    let index = number_within(value, "index", 0, 4_294_967_295)?;
    let sw = word_in(value)?;
    Some(Request::Answer {
        session,
        index: index as u32,
        sw,
    })
}

#[tactic(auto, unfolding(crate::specs::Requests::abort_in))]
fn abort_in(value: &Value) -> Option<Request>
    ensures value { result ≡ abort_in (view value.now) }
    ensures ranged { IfSome result IsRequest }
{
    let session = session_in(value)?;
    Some(Request::Abort { session })
}

#[tactic(auto, unfolding(crate::specs::Requests::discard_in))]
fn discard_in(value: &Value) -> Option<Request>
    ensures value { result ≡ discard_in (view value.now) }
    ensures ranged { IfSome result IsRequest }
{
    let blank = serial_at(value, "blank")?;
    Some(Request::Discard { blank })
}

#[tactic(auto, unfolding(crate::specs::Requests::remake_in))]
fn remake_in(value: &Value) -> Option<Request>
    ensures value { result ≡ remake_in (view value.now) }
    ensures ranged { IfSome result IsRequest }
{
    let batch = name_at(value, "batch")?;
    let rec = name_at(value, "record")?;
    Some(Request::Remake { batch, rec })
}

#[tactic(auto, unfolding(crate::specs::Requests::withdraw_in))]
fn withdraw_in(value: &Value) -> Option<Request>
    ensures value { result ≡ withdraw_in (view value.now) }
    ensures ranged { IfSome result IsRequest }
{
    let batch = name_at(value, "batch")?;
    let rec = name_at(value, "record")?;
    Some(Request::Withdraw { batch, rec })
}

#[tactic(auto, unfolding(crate::specs::Requests::close_in))]
fn close_in(value: &Value) -> Option<Request>
    ensures value { result ≡ close_in (view value.now) }
    ensures ranged { IfSome result IsRequest }
{
    let batch = name_at(value, "batch")?;
    Some(Request::Close { batch })
}

// ---- members

// Returns the number of members of an object.
fn count_in(value: &Value) -> Option<usize>
    ensures { result ≡ count_in (view value.now) }
{
    Some(value.as_object()?.len())
}

#[tactic(auto, unfolding(crate::specs::Requests::flag_at))]
pub(crate) fn flag_at(value: &Value, key: &str) -> Option<bool>
    ensures { result ≡ flag_at key.now (view value.now) }
{
    value.get(key)?.as_bool()
}

// Returns the number in the member `key` if it is in the range `least` to `most`.
#[tactic(auto, unfolding(crate::specs::Requests::number_within))]
pub(crate) fn number_within(value: &Value, key: &str, least: u64, most: u64) -> Option<u64>
    ensures value { result ≡ number_within least most key.now (view value.now) }
    ensures ranged { IfSome result (λ n. (least ≤ n) × (n ≤ most)) }
{
    let number = number_at(value, key)?;
    if least <= number && number <= most {
        Some(number)
    } else {
        None
    }
}

pub(crate) fn serial_at(value: &Value, key: &str) -> Option<u64>
    ensures value { result ≡ serial_at key.now (view value.now) }
    ensures ranged { IfSome result (λ n. n ≤ MOST_SERIAL) }
{
    number_within(value, key, 0, MOST_SERIAL)
}

pub(crate) fn session_in(value: &Value) -> Option<u64>
    ensures value { result ≡ session_in (view value.now) }
    ensures ranged { IfSome result (λ n. n ≤ MOST_SERIAL) }
{
    number_within(value, "session", 1, MOST_SERIAL)
}

#[tactic(auto, unfolding(crate::specs::Requests::word_in))]
pub(crate) fn word_in(value: &Value) -> Option<u16>
    ensures value { result ≡ word_in (view value.now) }
    ensures ranged { IfSome result (λ sw. sw < 2 ^ 16) }
{
    status_word(text_at(value, "sw")?.as_bytes())
}
