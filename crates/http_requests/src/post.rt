//! Makes the messages that clients send.
ghost use Rattle.std.specs.Prelude.{◌≡◌, ◌<◌, ◌≤◌, ◌^◌, [], IfOk, OnOk, Some, length, true};
ghost use Rattle.std.specs.List.{list_all};
ghost use Rattle.job_facts.specs.Sound.{IsName};
ghost use Rattle.job_facts.specs.declared.request.Call.TheVariants.{Job};
ghost use Rattle.job_facts.specs.declared.request.Request.TheVariants as request;
ghost use Rattle.text_io.specs.Inputs.{most_input};
ghost use Rattle.http_messages.specs.Messages.{Brings, IsHeardAs};
ghost use Rattle.http_messages.specs.RequestHeads.{is_visible, posted};
ghost use Rattle.http_requests.specs.Asks.{import_tail};
ghost use Rattle.http_requests.specs.Meant.{Means};
ghost use Rattle.http_requests.specs.Posts.{post_with, posted_with, target_with};
ghost use Rattle.http_requests.specs.Requests.{call_in};

use crate::ask::push_import_tail;
use http_messages::push_request_head;
use itoa::Buffer;
use std::alloc::{AllocError, Global};
use store_data::{Bytes, Name};

/// The space reserved for a head: a path with three names and a number of 18 digits, and the lines
/// around it.
const MOST_HEAD: usize = 256;

/// Returns the message in which `client` sends the JSON request `body` with the request number
/// `number`, 1 to 999,999,999,999,999,999.
///
/// # Errors
///
/// Returns `AllocError` if an allocation fails.
pub fn job_text(alloc: Global, client: &Name, number: u64, body: &[u8]) -> Result<Bytes, AllocError>
    requires least { 1 ≤ number }
    requires most { number < 10 ^ 18 }
    ensures text { IfOk result (λ text. text ≡ post_with client.now number [] body.now) }
    ensures means { length body.now ≤ most_input
        → IfOk result (λ text. Means text
        (posted_with client.now number [] body.now (call_in body.now))) }
{
    text_with(alloc, client, number, b"", body)
}

/// Returns the message in which `client` imports the batch file `raw` as the batch `batch` of the
/// product `product`. Its request number is `number`, 1 to 999,999,999,999,999,999.
///
/// # Errors
///
/// Returns `AllocError` if an allocation fails.
pub fn import_text(
    alloc: Global,
    client: &Name,
    number: u64,
    batch: &Name,
    product: &Name,
    raw: &[u8],
) -> Result<Bytes, AllocError>
    requires least { 1 ≤ number }
    requires most { number < 10 ^ 18 }
    ensures text { IfOk result
        (λ text. text ≡ post_with client.now number (import_tail batch.now product.now) raw.now) }
    ensures means { length raw.now ≤ most_input
        → IfOk result (λ text. Means text
        (posted_with client.now number (import_tail batch.now product.now) raw.now
        (Some (Job (request.Import batch.now product.now raw.now))))) }
{
    let mut tail = Vec::new(alloc);
    push_import_tail(&mut tail, batch, product)?;
    text_with(alloc, client, number, &tail, raw)
}

// Makes a message whose path has `tail` after the request number.
fn text_with(
    alloc: Global,
    client: &Name,
    number: u64,
    tail: &[u8],
    body: &[u8],
) -> Result<Bytes, AllocError>
    requires seen { list_all is_visible tail.now ≡ true }
    requires short { length tail.now ≤ 72 }
    ensures text { IfOk result (λ text. text ≡ post_with client.now number tail.now body.now) }
    ensures heard { length body.now ≤ most_input
        → IfOk result (λ text. IsHeardAs text
        (Brings (posted (target_with client.now number tail.now) body.now))) }
    ensures name { OnOk result (IsName client.now) }
{
    let target = target_with(alloc, client, number, tail)?;
    let mut text = Vec::with_capacity(alloc, MOST_HEAD + body.len())?;
    push_request_head(&mut text, &target, body.len())?;
    text.extend_from_slice(body)?;
    Ok(Bytes::from_vec(text))
}

fn target_with(
    alloc: Global,
    client: &Name,
    number: u64,
    tail: &[u8],
) -> Result<Vec<u8>, AllocError>
    ensures target { IfOk result (λ target. target.items ≡ target_with client.now number tail.now) }
    ensures name { OnOk result (IsName client.now) }
{
    let mut digits = Buffer::new();
    let mut target = Vec::from_slice(alloc, b"/c/")?;
    target.extend_from_slice(client.bytes())?;
    target.push(b'/')?;
    target.extend_from_slice(digits.format(number).as_bytes())?;
    target.extend_from_slice(tail)?;
    Ok(target)
}
