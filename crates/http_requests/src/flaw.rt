//! Finds the call in a JSON body, or the flaw of a body that isn't a call, for an event line.
ghost use Rattle.std.specs.Prelude.{◌≡◌, IfOk, MatchResult, None, Some, bytes_eq, codes};
ghost use Rattle.std.specs.Prelude.{option_and_then, option_copied, option_map};
ghost use Rattle.std.specs.List.{find, list_any};
ghost use Rattle.serde_json.specs.View.{view};
ghost use Rattle.job_facts.specs.Requests.{IsCall};
ghost use Rattle.http_messages.specs.Flaws.{name_of};
ghost use Rattle.http_messages.specs.declared.flaw.Member.{Member as MemberValue};
ghost use Rattle.http_requests.specs.Flaws.{body_flaw, flaw_by, has, is_additional};
ghost use Rattle.http_requests.specs.Flaws.{is_valid, is_wrong, members_of, object_flaw};
ghost use Rattle.http_requests.specs.Flaws.{wrong_flaw};
ghost use Rattle.http_requests.specs.Members.{text_at};
ghost use Rattle.http_requests.specs.Requests.{call_in};

use crate::body::object_in;
use crate::members::{name_at, text_at};
use crate::request::{
    MOST_SERIAL, call_of_value, flag_at, number_within, serial_at, session_in, word_in,
};
use http_messages::{Flaw, Member};
use job_facts::Call;
use serde_json::Value;
use std::alloc::{AllocError, Global};

const PRODUCT: &[Member] = &[
    Member::Do,
    Member::Product,
    Member::Max,
    Member::Low,
    Member::Check,
];

const LOT: &[Member] = &[
    Member::Do,
    Member::Lot,
    Member::Product,
    Member::First,
    Member::Count,
];

const OPEN: &[Member] = &[Member::Do, Member::Batch, Member::Blank];

const ANSWER: &[Member] = &[Member::Do, Member::Session, Member::Index, Member::Sw];

const ABORT: &[Member] = &[Member::Do, Member::Session];

const RESET: &[Member] = &[Member::Do];

const DISCARD: &[Member] = &[Member::Do, Member::Blank];

const REMAKE: &[Member] = &[Member::Do, Member::Batch, Member::Record];

const CLOSE: &[Member] = &[Member::Do, Member::Batch];

const RELEASE: &[Member] = &[Member::Do, Member::Upto];

/// All members, in alphabetical order.
const ALL: &[Member] = &[
    Member::Batch,
    Member::Blank,
    Member::Check,
    Member::Count,
    Member::Do,
    Member::First,
    Member::Index,
    Member::Lot,
    Member::Low,
    Member::Max,
    Member::Product,
    Member::Record,
    Member::Session,
    Member::Sw,
    Member::Upto,
];

/// Returns the call in `body`, or the flaw of a body that isn't a call (this project's profile).
///
/// # Errors
///
/// Returns `AllocError` if an allocation fails.
#[tactic(auto, using(crate::proofs::MemberLemmas::call_of_object))]
pub(crate) fn call_of(alloc: Global, body: &[u8]) -> Result<Result<Call, Flaw>, AllocError>
    ensures value { IfOk result (λ r. MatchResult r (λ call. call_in body.now ≡ Some call)
        (λ flaw. (call_in body.now ≡ None) × (flaw ≡ body_flaw body.now))) }
    ensures ranged { IfOk result (λ r. IfOk r IsCall) }
{
    match object_in(alloc, body)? {
        Some(value) => match call_of_value(&value) {
            Some(call) => Ok(Ok(call)),
            None => Ok(Err(object_flaw(&value))),
        },
        None => Ok(Err(Flaw::Body)),
    }
}

// Returns the flaw of an object that isn't a call: the first member, in the order of the members of
// its request, that is missing or has an invalid value, and otherwise an additional member.
fn object_flaw(value: &Value) -> Flaw
    ensures { result ≡ object_flaw (view value.now) }
{
    match row_of(value) {
        Some(row) => {
            let wrong = first_wrong(value, row).copied();
            let additional = first_additional(value, row, ALL).copied();
            flaw_by(value, wrong, additional)
        }
        None => wrong_flaw(value, Member::Do),
    }
}

// Returns the members of the request with the word of `do`.
fn row_of(value: &Value) -> Option<&'static [Member]>
    ensures { option_map (λ row. row.now) result
        ≡ option_and_then members_of (text_at (codes "do") (view value.now)) }
{
    match text_at(value, "do") {
        Some(word) => members_of(word),
        None => None,
    }
}

#[tactic(auto, unfolding(crate::specs::Flaws::members_of))]
fn members_of(word: &str) -> Option<&'static [Member]>
    ensures { option_map (λ row. row.now) result ≡ members_of word.now }
{
    match word {
        "product" => Some(PRODUCT),
        "lot" => Some(LOT),
        "open" => Some(OPEN),
        "answer" => Some(ANSWER),
        "abort" => Some(ABORT),
        "reset" => Some(RESET),
        "discard" => Some(DISCARD),
        "remake" => Some(REMAKE),
        "withdraw" => Some(REMAKE),
        "close" => Some(CLOSE),
        "release" => Some(RELEASE),
        _ => None,
    }
}

fn flaw_by(value: &Value, wrong: Option<Member>, additional: Option<Member>) -> Flaw
    ensures { result ≡ flaw_by (view value.now) wrong additional }
{
    match wrong {
        Some(member) => wrong_flaw(value, member),
        None => match additional {
            Some(member) => Flaw::Additional(member),
            // Each member is valid, so the last serial of a lot is too large.
            None => Flaw::Value(Member::Count),
        },
    }
}

fn wrong_flaw(value: &Value, member: Member) -> Flaw
    ensures { result ≡ wrong_flaw (view value.now) member }
{
    if has(value, member) {
        Flaw::Value(member)
    } else {
        Flaw::Missing(member)
    }
}

fn first_wrong<'a>(value: &Value, row: &'a [Member]) -> Option<&'a Member>
    ensures { option_copied result ≡ find (is_wrong (view value.now)) row.now }
{
    row.iter().find(|member| is_wrong(value, **member))
}

// Returns the first of `members` that `value` has and that isn't in `row`.
fn first_additional<'a>(value: &Value, row: &[Member], members: &'a [Member]) -> Option<&'a Member>
    ensures { option_copied result ≡ find (is_additional (view value.now) row.now) members.now }
{
    members
        .iter()
        .find(|member| is_additional(value, row, **member))
}

fn is_wrong(value: &Value, member: Member) -> bool
    ensures { result ≡ is_wrong (view value.now) member }
{
    !(has(value, member) && is_valid(value, member))
}

fn is_additional(value: &Value, row: &[Member], member: Member) -> bool
    ensures { result ≡ is_additional (view value.now) row.now member }
{
    has(value, member) && !contains(row, member)
}

fn contains(row: &[Member], member: Member) -> bool
    ensures { result
        ≡ list_any (λ (own : MemberValue). bytes_eq (name_of own) (name_of member)) row.now }
{
    row.iter().any(|own| own.name() == member.name())
}

fn has(value: &Value, member: Member) -> bool
    ensures { result ≡ has (view value.now) member }
{
    match value.get(member.name()) {
        Some(_) => true,
        None => false,
    }
}

// Returns `true` if the value of the member is in its range. The value of `do` was checked before.
fn is_valid(value: &Value, member: Member) -> bool
    ensures { result ≡ is_valid (view value.now) member }
{
    match member {
        Member::Do => true,
        Member::Batch => name_at(value, "batch").is_some(),
        Member::Blank => serial_at(value, "blank").is_some(),
        Member::Check => flag_at(value, "check").is_some(),
        Member::Count => number_within(value, "count", 1, 1_000_000).is_some(),
        Member::First => serial_at(value, "first").is_some(),
        Member::Index => number_within(value, "index", 0, 4_294_967_295).is_some(),
        Member::Lot => name_at(value, "lot").is_some(),
        Member::Low => number_within(value, "low", 0, 31).is_some(),
        Member::Max => number_within(value, "max", 16, 255).is_some(),
        Member::Product => name_at(value, "product").is_some(),
        Member::Record => name_at(value, "record").is_some(),
        Member::Session => session_in(value).is_some(),
        Member::Sw => word_in(value).is_some(),
        Member::Upto => number_within(value, "upto", 1, MOST_SERIAL).is_some(),
    }
}
