//! Parses JSON (RFC 8259), and reads the members of an object. A function returns `None` if the
//! object has no member with this name and type.
ghost use Rattle.std.specs.Prelude.{◌≡◌, ◌<◌, ◌^◌, IfOk, IfSome, IsTrue, option_map};
ghost use Rattle.store_data.specs.Name.{is_name};
ghost use Rattle.serde_json.specs.View.{view};
ghost use Rattle.http_requests.specs.Members.{name_at, number_at, text_at, value_in};

use serde_json::Value;
use std::alloc::{AllocError, Global};
use store_data::Name;

/// Returns the value of `body` if it is JSON in UTF-8, otherwise `None`. If a member is given
/// twice, the last one counts.
///
/// # Errors
///
/// Returns `AllocError` if an allocation fails.
#[tactic(auto, unfolding(crate::specs::Members::value_in))]
pub fn value_in(alloc: Global, body: &[u8]) -> Result<Option<Value>, AllocError>
    ensures { IfOk result (λ v. option_map view v ≡ value_in body.now) }
{
    match Value::from_slice(alloc, body) {
        Ok(value) => Ok(Some(value)),
        Err(fault) => if fault.is_memory() {
            Err(AllocError)
        } else {
            Ok(None)
        },
    }
}

/// Returns the string in the member `key`.
#[tactic(auto, unfolding(crate::specs::Members::text_at))]
pub fn text_at<'v>(value: &'v Value, key: &str) -> Option<&'v str>
    ensures { option_map (λ text. text.now) result ≡ text_at key.now (view value.now) }
{
    value.get(key)?.as_str()
}

/// Returns the name in the member `key`.
#[tactic(auto, unfolding(crate::specs::Members::name_at))]
pub fn name_at(value: &Value, key: &str) -> Option<Name>
    ensures value { result ≡ name_at key.now (view value.now) }
    ensures named { IfSome result (λ name. IsTrue (is_name name)) }
{
    Name::new(text_at(value, key)?.as_bytes())
}

/// Returns the number in the member `key`. It must be below 2^64, without a minus sign, a point or
/// an exponent.
pub fn number_at(value: &Value, key: &str) -> Option<u64>
    ensures value { result ≡ number_at key.now (view value.now) }
    ensures ranged { IfSome result (λ n. n < 2 ^ 64) }
{
    value.get(key)?.as_u64()
}
