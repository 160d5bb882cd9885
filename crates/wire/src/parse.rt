//! Parses the responses of the server.
ghost use Rattle.std.specs.Prelude.{◌≡◌, ◌≢◌, ◌<◌, ◌≤◌, ◌^◌, ◌↔◌, ◌++◌, ℕ, List, length};
ghost use Rattle.std.specs.Prelude.{slice_index, Some, IfOk, IfSome, IsTrue};
ghost use Rattle.hex.specs.Hex.{IsBytes};
ghost use Rattle.job_facts.specs.Sound.{IsName};
ghost use Rattle.job_facts.specs.declared.reply.Reply.{Reply as ReplyValue};
ghost use Rattle.serde_json.specs.View.{view};
ghost use Rattle.wire.specs.ReplyReading.{HasNoBrace, accepted_in, bytes_at, command_in, count_at};
ghost use Rattle.wire.specs.ReplyReading.{ended_in, import_in, made_in, next_in, noted_in};
ghost use Rattle.wire.specs.ReplyReading.{opened_in, refused_in, reply_in};
ghost use Rattle.wire.specs.ReplyText.{IsReply, reply_bytes};
ghost use Rattle.http_requests.specs.Members.{name_at, number_at, text_at};

use arrivals::{body_of, status_of};
use batch_import::{Kind as FaultKind, RowFault};
use hex::FromHexError;
use http_messages::{Content, reply_head};
use http_requests::members::{name_at, number_at, text_at, value_in};
use job_facts::{Made, Refusal, Reply};
use serde_json::Value;
use std::alloc::{AllocError, Global};
use store_data::{Bytes, Name};

/// Parses a response, from its status line to the end of its body. Returns `None` unless `bytes`
/// are exactly the text of a reply to a call.
///
/// # Errors
///
/// Returns `AllocError` if an allocation fails.
pub fn parse_reply(alloc: Global, bytes: &[u8]) -> Result<Option<Reply>, AllocError>
    ensures is { IfOk result
        (λ found. IfSome found (λ r. IsReply r × (bytes.now ≡ reply_bytes r))) }
    ensures found { (r : ReplyValue) → IsReply r → bytes.now ≡ reply_bytes r
        → IfOk result (λ found. found ≡ Some r) }
{
    let Some(value) = value_in(alloc, body_in(bytes))? else {
        return Ok(None);
    };
    let Some(reply) = reply_in(alloc, &value)? else {
        return Ok(None);
    };
    if is_text_of(alloc, bytes, &reply)? {
        Ok(Some(reply))
    } else {
        Ok(None)
    }
}

// Returns the body, which begins with the first brace. A head has no brace.
fn body_in(bytes: &[u8]) -> &[u8]
    ensures few { length bytes.now < 2 ^ 64 }
    ensures body { (head body : List ℕ) → bytes.now ≡ head ++ body → HasNoBrace head
        → slice_index body 0 ≡ 123 → result.now ≡ body }
{
    &bytes[first_brace(bytes)..]
}

// Returns the index of the first brace, or the length if there is no brace.
fn first_brace(bytes: &[u8]) -> usize
    ensures few { length bytes.now < 2 ^ 64 }
    ensures within { result ≤ length bytes.now }
    ensures before { (k : ℕ) → k < result → slice_index bytes.now k ≢ 123 }
    ensures there { result < length bytes.now → slice_index bytes.now result ≡ 123 }
{
    for (i, b) in bytes.iter().enumerate() {
        if *b == b'{' {
            return i;
        }
    }
    bytes.len()
}

// Returns `true` if `bytes` are the whole text of `reply`.
fn is_text_of(alloc: Global, bytes: &[u8], reply: &Reply) -> Result<bool, AllocError>
    ensures { IfOk result (λ same. IsTrue same ↔ (bytes.now ≡ reply_bytes reply.now)) }
{
    let body = body_of(alloc, reply)?;
    let mut head = [0; 256];
    let size = body.as_slice().len();
    let end = reply_head(status_of(reply), Content::Json, size, &mut head);
    match bytes.strip_prefix(&head[..end]) {
        Some(rest) => Ok(rest == body.as_slice()),
        None => Ok(false),
    }
}

// Returns the only reply that may have this body, from its members. Comparing its text with the
// response decides whether it is the reply.
fn reply_in(alloc: Global, value: &Value) -> Result<Option<Reply>, AllocError>
    ensures value { IfOk result (λ found. found ≡ reply_in (view value.now)) }
    ensures ranged { IfOk result (λ found. IfSome found IsReply) }
{
    match text_at(value, "result") {
        Some(word) => accepted_in(alloc, value, word),
        None => Ok(refused_in(value)),
    }
}

fn accepted_in(alloc: Global, value: &Value, word: &str) -> Result<Option<Reply>, AllocError>
    ensures value { IfOk result (λ found. found ≡ accepted_in (view value.now) word.now) }
    ensures ranged { IfOk result (λ found. IfSome found IsReply) }
{
    match word {
        "created" => Ok(made_in(value, Made::Created)),
        "known" => Ok(made_in(value, Made::Known)),
        "command" => command_in(alloc, value),
        _ => Ok(ended_in(value, word)),
    }
}

fn made_in(value: &Value, made: Made) -> Option<Reply>
    ensures value { result ≡ made_in made (view value.now) }
    ensures ranged { IfSome result IsReply }
{
    if let Some(product) = name_at(value, "product") {
        return Some(Reply::Product { product, made });
    }
    if let Some(lot) = name_at(value, "lot") {
        return Some(Reply::Lot { lot, made });
    }
    import_in(value, made)
}

fn import_in(value: &Value, made: Made) -> Option<Reply>
    ensures value { result ≡ import_in made (view value.now) }
    ensures ranged { IfSome result IsReply }
{
    let batch = name_at(value, "batch")?;
    let records = count_at(value, "records")?;
    let rows = count_at(value, "rows")?;
    Some(Reply::Import {
        batch,
        records,
        made,
        rows,
    })
}

fn command_in(alloc: Global, value: &Value) -> Result<Option<Reply>, AllocError>
    ensures value { IfOk result (λ found. found ≡ command_in (view value.now)) }
    ensures ranged { IfOk result (λ found. IfSome found IsReply) }
{
    let Some(command) = bytes_at(alloc, value, "command")? else {
        return Ok(None);
    };
    match name_at(value, "batch") {
        Some(batch) => Ok(opened_in(value, batch, command)),
        None => Ok(next_in(value, command)),
    }
}

fn opened_in(value: &Value, batch: Name, command: Bytes) -> Option<Reply>
    requires name { IsName batch }
    requires bytes { IsBytes command }
    ensures value { result ≡ opened_in batch command (view value.now) }
    ensures ranged { IfSome result IsReply }
{
    let blank = number_at(value, "blank")?;
    let rec = name_at(value, "record")?;
    let session = number_at(value, "session")?;
    Some(Reply::Opened {
        batch,
        blank,
        command,
        rec,
        session,
    })
}

fn next_in(value: &Value, command: Bytes) -> Option<Reply>
    requires { IsBytes command }
    ensures value { result ≡ next_in command (view value.now) }
    ensures ranged { IfSome result IsReply }
{
    let index = number_at(value, "index")?;
    let session = number_at(value, "session")?;
    Some(Reply::Next {
        command,
        index,
        session,
    })
}

fn ended_in(value: &Value, word: &str) -> Option<Reply>
    ensures value { result ≡ ended_in (view value.now) word.now }
    ensures ranged { IfSome result IsReply }
{
    match word {
        "good" => Some(Reply::Good {
            session: number_at(value, "session")?,
        }),
        "spoiled" => Some(Reply::Spoiled {
            session: number_at(value, "session")?,
        }),
        "reset" => Some(Reply::Reset {
            session: number_at(value, "session")?,
        }),
        "discarded" => Some(Reply::Discarded {
            blank: number_at(value, "blank")?,
        }),
        "released" => Some(Reply::Released {
            mark: number_at(value, "mark")?,
        }),
        _ => noted_in(value, word),
    }
}

fn noted_in(value: &Value, word: &str) -> Option<Reply>
    ensures value { result ≡ noted_in (view value.now) word.now }
    ensures ranged { IfSome result IsReply }
{
    let batch = name_at(value, "batch")?;
    match word {
        "waiting" => Some(Reply::Waiting {
            batch,
            rec: name_at(value, "record")?,
        }),
        "withdrawn" => Some(Reply::Withdrawn {
            batch,
            rec: name_at(value, "record")?,
        }),
        "closed" => Some(Reply::Closed { batch }),
        _ => None,
    }
}

fn refused_in(value: &Value) -> Option<Reply>
    ensures value { result ≡ refused_in (view value.now) }
    ensures ranged { IfSome result IsReply }
{
    let code = number_at(value, "code")?;
    if let Some(session) = number_at(value, "session") {
        return Some(Reply::Busy { session });
    }
    if let Some(mark) = number_at(value, "mark") {
        return Some(Reply::NumberReleased { mark });
    }
    if let Some(row) = count_at(value, "row") {
        let kind = FaultKind::from_code(code)?;
        return Some(Reply::Faulty {
            fault: RowFault { row, kind },
        });
    }
    let refusal = Refusal::from_code(code)?;
    Some(Reply::Refused { refusal })
}

// ---- members

fn count_at(value: &Value, key: &str) -> Option<u32>
    ensures value { result ≡ count_at key.now (view value.now) }
    ensures ranged { IfSome result (λ n. n < 2 ^ 32) }
{
    let number = number_at(value, key)?;
    u32::try_from(number).ok()
}

// Returns the bytes whose hexadecimal text is in the member `key`.
fn bytes_at(alloc: Global, value: &Value, key: &str) -> Result<Option<Bytes>, AllocError>
    ensures value { IfOk result (λ found. found ≡ bytes_at key.now (view value.now)) }
    ensures ranged { IfOk result (λ found. IfSome found IsBytes) }
{
    let Some(text) = text_at(value, key) else {
        return Ok(None);
    };
    match hex::decode(alloc, text.as_bytes()) {
        Ok(bytes) => Ok(Some(Bytes::from_vec(bytes))),
        Err(FromHexError::OutOfMemory) => Err(AllocError),
        Err(_) => Ok(None),
    }
}
