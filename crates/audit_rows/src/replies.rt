//! Checks the kept replies and the release marks.
ghost use Rattle.std.specs.Prelude.{◌≡◌, ◌≤◌, ◌<◌, ◌^◌, ◌⊎◌, ◌↔◌, ℕ, List, false, IfOk, IsTrue, All};
ghost use Rattle.std.specs.Prelude.{AllPairs, bytes_eq, map};
ghost use Rattle.job_facts.specs.Contents.{Entry, IsEntry, IsMark, Mark, is_above, is_of_number};
ghost use Rattle.job_facts.specs.Contents.{mark_of};
ghost use Rattle.job_facts.specs.Sound.{IsName};
ghost use Rattle.audit_rows.specs.Clients.{mark_at, named};

use crate::once::are_once;
use audit_order::is_name;
use std::alloc::{AllocError, Global};
use std::collections::BTreeMap;
use table_rows::{StoredMark, StoredReply, Tables};

/// The limit of request numbers and release marks: all of them are below it.
const END: u64 = 1_000_000_000_000_000_000;

// Returns `true` if the client of the release mark is a valid name and the mark is in range.
fn is_mark(mark: &StoredMark) -> bool
    ensures { IsTrue result ↔ IsMark mark.now }
{
    is_name(&mark.client) && mark.upto >= 1 && mark.upto < END
}

fn are_marks(marks: &[StoredMark]) -> bool
    ensures { IsTrue result ↔ All IsMark marks.now }
{
    marks.iter().all(|mark| is_mark(mark))
}

// Returns `true` if the status is the one of an accepted request or of a refusal.
fn has_status(reply: &StoredReply) -> bool
    ensures { IsTrue result ↔ ((reply.now.status ≡ 200) ⊎ (reply.now.status ≡ 409)) }
{
    reply.status == 200 || reply.status == 409
}

// Returns `true` if the client is a valid name and the request number is in range.
fn is_numbered(reply: &StoredReply) -> bool
    ensures { IsTrue result ↔ (IsName reply.now.client × (1 ≤ reply.now.number)
        × (reply.now.number < 10 ^ 18)) }
{
    is_name(&reply.client) && reply.number >= 1 && reply.number < END
}

// Returns `true` if the client, the request number and the status of a kept reply are in range.
fn is_entry(reply: &StoredReply) -> bool
    ensures { IsTrue result ↔ IsEntry reply.now }
{
    if !is_numbered(reply) {
        return false;
    }
    has_status(reply)
}

fn are_entries(replies: &[StoredReply]) -> bool
    ensures { IsTrue result ↔ All IsEntry replies.now }
{
    replies.iter().all(|reply| is_entry(reply))
}

fn clients_of(alloc: Global, marks: &[StoredMark]) -> Result<Vec<&[u8]>, AllocError>
    ensures { IfOk result (λ names. map (λ name. name.now) names.items
        ≡ map (λ (m : Mark). m.client) marks.now) }
{
    marks
        .iter()
        .map(|mark| mark.client.as_slice())
        .collect(alloc)
}

/// Returns `true` if no client has two release marks.
pub(crate) fn are_marked_once(alloc: Global, marks: &[StoredMark]) -> Result<bool, AllocError>
    ensures { IfOk result (λ once. IsTrue once
        ↔ AllPairs (λ (m n : Mark). bytes_eq m.client n.client ≡ false) marks.now) }
{
    let clients = clients_of(alloc, marks)?;
    are_once(alloc, &clients)
}

// Returns the client and the request number of each kept reply.
fn numbers_of(alloc: Global, replies: &[StoredReply]) -> Result<Vec<(&[u8], u64)>, AllocError>
    ensures { IfOk result (λ numbers. map named numbers.items
        ≡ map (λ (e : Entry). (e.client, e.number)) replies.now) }
{
    replies
        .iter()
        .map(|reply| (reply.client.as_slice(), reply.number))
        .collect(alloc)
}

/// Returns `true` if no client has two kept replies with the same request number.
pub(crate) fn are_kept_once(alloc: Global, replies: &[StoredReply]) -> Result<bool, AllocError>
    ensures { IfOk result (λ once. IsTrue once
        ↔ AllPairs (λ (d e : Entry). is_of_number d e ≡ false) replies.now) }
{
    let numbers = numbers_of(alloc, replies)?;
    are_once(alloc, &numbers)
}

// Returns the release mark of each client.
fn by_client(alloc: Global, marks: &[StoredMark]) -> Result<BTreeMap<&[u8], u64>, AllocError>
    requires { AllPairs (λ (m n : Mark). bytes_eq m.client n.client ≡ false) marks.now }
    ensures { IfOk result
        (λ uptos. (client : List ℕ) → mark_at uptos client ≡ mark_of marks.now client) }
{
    marks
        .iter()
        .map(|mark| (mark.client.as_slice(), mark.upto))
        .collect(alloc)
}

// Returns the release mark of `client`, or 0 if it has released nothing.
#[tactic(auto, unfolding(crate::specs::Clients::mark_at))]
fn mark_at(uptos: &BTreeMap<&[u8], u64>, client: &[u8]) -> u64
    ensures { result ≡ mark_at uptos.now client.now }
{
    uptos.get(client).copied().unwrap_or(0)
}

// Returns `true` if the request number of `reply` is above the release mark of its client in
// `uptos`.
fn is_above(uptos: &BTreeMap<&[u8], u64>, reply: &StoredReply) -> bool
    ensures { IsTrue result ↔ (mark_at uptos.now reply.now.client < reply.now.number) }
{
    mark_at(uptos, &reply.client) < reply.number
}

// Returns `true` if the request number of each reply is above the release mark of its client in
// `uptos`.
fn are_above(uptos: &BTreeMap<&[u8], u64>, replies: &[StoredReply]) -> bool
    ensures { IsTrue result
        ↔ All (λ (e : Entry). mark_at uptos.now e.client < e.number) replies.now }
{
    replies.iter().all(|reply| is_above(uptos, reply))
}

/// Returns `true` if the request number of each reply is above the release mark of its client in
/// `marks`.
pub(crate) fn are_unreleased(
    alloc: Global,
    marks: &[StoredMark],
    replies: &[StoredReply],
) -> Result<bool, AllocError>
    requires { AllPairs (λ (m n : Mark). bytes_eq m.client n.client ≡ false) marks.now }
    ensures { IfOk result (λ above. IsTrue above
        ↔ All (λ (e : Entry). IsTrue (is_above marks.now e)) replies.now) }
{
    let uptos = by_client(alloc, marks)?;
    Ok(are_above(&uptos, replies))
}

/// Returns `true` if all release marks of `tables` have values in range.
pub(crate) fn has_marks(tables: &Tables) -> bool
    ensures { IsTrue result ↔ All IsMark tables.now.marks }
{
    are_marks(&tables.marks)
}

/// Returns `true` if all kept replies of `tables` have values in range.
pub(crate) fn has_entries(tables: &Tables) -> bool
    ensures { IsTrue result ↔ All IsEntry tables.now.replies }
{
    are_entries(&tables.replies)
}
