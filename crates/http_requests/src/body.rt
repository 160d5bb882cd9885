//! Reads the object in a JSON body (RFC 8259), and stores only what a request can depend on.
ghost use Rattle.std.specs.Prelude.{◌≡◌, ◌==◌, ◌<◌, ◌∷◌, length, Err, IfOk, IsTrue, MatchResult};
ghost use Rattle.std.specs.Prelude.{None, OnOk, Some, false, option_and_then, option_map};
ghost use Rattle.std.specs.Prelude.{slice_index, true};
ghost use Rattle.std.specs.Bool.{MatchBool};
ghost use Rattle.json.specs.Json.{parse_map};
ghost use Rattle.json.specs.Token.{begin_object};
ghost use Rattle.serde_json.specs.Data.{Items, Members};
ghost use Rattle.serde_json.specs.Find.{as_object};
ghost use Rattle.serde_json.specs.Read.{converted, number_from, number_of, read};
ghost use Rattle.serde_json.specs.View.{members_view, number_view, view};
ghost use Rattle.http_requests.specs.Bodies.{begins_object, is_member_name, items_at};
ghost use Rattle.http_requests.specs.Bodies.{known_primitives, members_at, object_in};
ghost use Rattle.http_requests.specs.Bodies.{primitive_of, primitive_view, value_at};

use fast_float::Numeral;
use json::{Invalid, Reader, Scratch, Token};
use serde_json::{Map, Number, Value, put};
use std::alloc::{AllocError, Global};
use std::str::from_utf8;

/// The maximum number of arrays and objects that a member of the body may nest. With the body
/// itself, these are the 127 levels of `serde_json`.
const MOST_DEPTH: usize = 126;

/// A primitive value, or `Null`, which replaces a structured value.
#[derive(Clone, Copy, Drop)]
enum Primitive<'a> {
    Null,
    Bool(bool),
    Number(Number),
    String(&'a str),
}

/// The reason why a body isn't read.
#[derive(Clone, Copy, Drop)]
enum BodyFault {
    /// The body isn't JSON, isn't an object, or has a member that no request has.
    Unfit,
    /// An allocation failed.
    Memory,
}

impl From<Invalid> for BodyFault {
    ghost use Rattle.http_requests.specs.declared.body.BodyFault.TheVariants.{Unfit};

    ghost from_gives = { λ _ why. why ≡ Unfit };

    fn from(_invalid: Invalid) -> BodyFault {
        BodyFault::Unfit
    }
}

impl From<AllocError> for BodyFault {
    ghost use Rattle.http_requests.specs.declared.body.BodyFault.TheVariants.{Memory};

    ghost from_gives = { λ _ why. why ≡ Memory };

    fn from(_error: AllocError) -> BodyFault {
        BodyFault::Memory
    }
}

/// Returns the object in `body`, with each structured value replaced by null. Returns `None` if
/// `body` isn't an object, or at the first member that no request has.
///
/// # Errors
///
/// Returns `AllocError` if an allocation fails.
pub(crate) fn object_in(alloc: Global, body: &[u8]) -> Result<Option<Value>, AllocError>
    ensures { IfOk result (λ v. option_map view v ≡ object_in body.now) }
{
    let Ok(text) = from_utf8(body) else {
        return Ok(None);
    };
    match read_text(alloc, text) {
        Ok(members) => Ok(Some(Value::Object(members))),
        Err(BodyFault::Unfit) => Ok(None),
        Err(BodyFault::Memory) => Err(AllocError),
    }
}

// Returns the members of the object that is the whole of `text`.
fn read_text(alloc: Global, text: &str) -> Result<Map<String, Value>, BodyFault>
    ensures ok { IfOk result
        (λ m. option_and_then known_primitives (option_and_then as_object (read text.now))
        ≡ Some (members_view m.entries)) }
    ensures unfit { result ≡ Err BodyFault.Unfit
        → option_and_then known_primitives (option_and_then as_object (read text.now)) ≡ None }
{
    let mut scratch = Scratch::new(alloc);
    let mut reader = Reader::new(text, &mut scratch)?;
    if !take_begin_object(&mut reader) {
        return Err(BodyFault::Unfit);
    }
    let members = read_members(alloc, &mut reader)?;
    match reader.next() {
        Some(_) => Err(BodyFault::Unfit),
        None => Ok(members),
    }
}

// Reads one token, and returns `true` if it opens an object.
fn take_begin_object(reader: &mut Reader<'_>) -> bool
    ensures { MatchBool result (reader.old ≡ begin_object ∷ reader.new)
        (begins_object reader.old ≡ false) }
{
    matches!(reader.next(), Some(Token::BeginObject))
}

// Reads the members of the body, up to the brace that closes it.
fn read_members(alloc: Global, reader: &mut Reader<'_>) -> Result<Map<String, Value>, BodyFault>
    ensures ok { IfOk result
        (λ m. converted known_primitives (members_at MOST_DEPTH reader.old)
        ≡ Some (members_view m.entries, reader.new)) }
    ensures unfit { result ≡ Err BodyFault.Unfit
        → converted known_primitives (members_at MOST_DEPTH reader.old) ≡ None }
{
    let mut found = Map::new(alloc);
    'members: while let Some(name) = reader.next_key()? {
        if !is_member_name(name) {
            return Err(BodyFault::Unfit);
        }
        let primitive = read_primitive(reader, MOST_DEPTH)?;
        let value = owned(alloc, primitive)?;
        put(&mut found, alloc, name, value)?;
    }
    Ok(found)
}

// Returns `true` if a request has a member with this name.
#[tactic(auto, unfolding(crate::specs::Bodies::is_member_name))]
fn is_member_name(name: &str) -> bool
    ensures { result ≡ is_member_name name.now }
{
    matches!(
        name,
        "do" | "batch"
            | "blank"
            | "check"
            | "count"
            | "first"
            | "index"
            | "lot"
            | "low"
            | "max"
            | "product"
            | "record"
            | "session"
            | "sw"
            | "upto"
    )
}

// Returns `primitive` with a copy of its text.
fn owned(alloc: Global, primitive: Primitive<'_>) -> Result<Value, AllocError>
    ensures { IfOk result (λ v. view v ≡ primitive_view primitive.entry) }
{
    Ok(match primitive {
        Primitive::Null => Value::Null,
        Primitive::Bool(flag) => Value::Bool(flag),
        Primitive::Number(number) => Value::Number(number),
        Primitive::String(text) => Value::try_from_str(alloc, text)?,
    })
}

// ---- values

// Reads a value. Its arrays and objects may nest `depth` deep. They are checked, and not stored.
#[cycle(value)]
fn read_primitive<'a>(reader: &mut Reader<'a>, depth: usize) -> Result<Primitive<'a>, Invalid>
    ensures value { MatchResult result
        (λ v. parse_map primitive_of (value_at depth reader.old)
        ≡ Some (primitive_view v, reader.new))
        (λ _. value_at depth reader.old ≡ None) }
    ensures shorter { OnOk result (length reader.new < length reader.old) }
{
    let token = reader.next().ok_or(Invalid)?;
    match token {
        Token::Null => Ok(Primitive::Null),
        Token::Bool(flag) => Ok(Primitive::Bool(flag)),
        Token::Number(text) => match number_in(text) {
            Some(number) => Ok(Primitive::Number(number)),
            None => Err(Invalid),
        },
        Token::String(text) => Ok(Primitive::String(text)),
        Token::BeginArray => {
            if depth == 0 {
                return Err(Invalid);
            }
            skip_items(reader, depth - 1)?;
            Ok(Primitive::Null)
        }
        Token::BeginObject => {
            if depth == 0 {
                return Err(Invalid);
            }
            skip_members(reader, depth - 1)?;
            Ok(Primitive::Null)
        }
        Token::EndArray | Token::EndObject | Token::Key(_) | Token::Bad => Err(Invalid),
    }
}

// Reads the values of an array, up to the bracket that closes it.
#[cycle(value)]
fn skip_items(reader: &mut Reader<'_>, depth: usize) -> Result<(), Invalid>
    ensures value { MatchResult result
        (λ _. (ds : Items) × (items_at depth reader.old ≡ Some (ds, reader.new)))
        (λ _. items_at depth reader.old ≡ None) }
    ensures shorter { OnOk result (length reader.new < length reader.old) }
{
    'items: while !reader.take_end_array() {
        read_primitive(reader, depth)?;
    }
    Ok(())
}

// Reads the members of an object, up to the brace that closes it.
#[cycle(value)]
fn skip_members(reader: &mut Reader<'_>, depth: usize) -> Result<(), Invalid>
    ensures value { MatchResult result
        (λ _. (ms : Members) × (members_at depth reader.old ≡ Some (ms, reader.new)))
        (λ _. members_at depth reader.old ≡ None) }
    ensures shorter { OnOk result (length reader.new < length reader.old) }
{
    'members: while let Some(_) = reader.next_key()? {
        read_primitive(reader, depth)?;
    }
    Ok(())
}

// ---- numbers

// Returns the number with this text, or `None` if it is too large for a float.
fn number_in(text: &str) -> Option<Number>
    ensures { option_map number_view result ≡ number_of text.now }
{
    let bytes = text.as_bytes();
    if has_minus(bytes) {
        negative(&Numeral::scan(&bytes[1..]))
    } else {
        unsigned(&Numeral::scan(bytes))
    }
}

fn has_minus(bytes: &[u8]) -> bool
    ensures value { result ≡ (slice_index bytes.now 0 == 45) }
    ensures some { IsTrue result → 0 < length bytes.now }
{
    !bytes.is_empty() && bytes[0] == b'-'
}

// Returns the number that `numeral` denotes without a sign.
fn unsigned(numeral: &Numeral<'_>) -> Option<Number>
    ensures { option_map number_view result ≡ number_from false numeral.now }
{
    match numeral.to_u64() {
        Some(n) => Some(Number::from(n)),
        None => Number::from_f64(numeral.to_float::<f64>(false)),
    }
}

// Returns the number that `numeral` denotes after a minus sign. An integer below -2^63, and `-0`,
// is a float.
fn negative(numeral: &Numeral<'_>) -> Option<Number>
    ensures { option_map number_view result ≡ number_from true numeral.now }
{
    match numeral.to_i64(true) {
        Some(n) if n < 0 => Some(Number::from(n)),
        _ => Number::from_f64(numeral.to_float::<f64>(true)),
    }
}
