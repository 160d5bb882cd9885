//! Converts messages to requests.
ghost use Rattle.std.specs.Prelude.{◌≡◌, ◌++◌, [], ◌∷◌, Err, IfOk, Ok, OnOk};
ghost use Rattle.std.specs.Prelude.{bytes_eq, if◌then◌else◌};
ghost use Rattle.store_data.specs.Name.{is_name};
ghost use Rattle.job_facts.specs.Sound.{IsName};
ghost use Rattle.http_requests.specs.Asks.{IsAsked, IsInRange, ask_in, ask_with, asked_of};
ghost use Rattle.http_requests.specs.Asks.{flaw_in, import_tail};
ghost use Rattle.http_requests.specs.Asks.{method_text, or_malformed};
ghost use Rattle.http_messages.specs.Messages.{as_parts};
ghost use Rattle.http_requests.specs.RouterRows.{shown};
ghost use Rattle.http_requests.specs.Routes.{Import, Job};
ghost use Rattle.http_messages.specs.declared.fixed.FixedReply.TheVariants.{Malformed};
ghost use Rattle.http_messages.specs.declared.flaw.Flaw.TheVariants.{PathName};

use crate::flaw::call_of;
use crate::route::{ImportPath, Route, Routes};
use http_messages::{FixedReply, Flaw, Message, Method};
use job_facts::{Arrival, Call, Request};
use std::alloc::{AllocError, Global};
use std::error::Error;
use std::fmt;
use store_data::{Bytes, Name};
use text_io::number_in;

/// The maximum size of the part of an import's path after the request number: two names of at most
/// 32 characters, and the text before each of them.
const MOST_TAIL: usize = 72;

/// An account or a report that a message asks for.
#[derive(Clone, Copy, PartialEq, Eq)]
pub enum Wanted {
    /// The account of a batch.
    Batch(Name),
    /// The report of a batch.
    Report(Name),
    /// The account of a product's blanks.
    Blanks(Name),
}

/// The request of a message.
#[derive(Drop)]
pub enum Asked {
    /// A call with its client and request number.
    Arrival(Arrival),
    /// An account or a report, which changes nothing.
    Account(Wanted),
}

/// The reason why a message has no request.
#[derive(Clone, Copy, Debug, PartialEq, Eq)]
pub enum AskFault {
    /// The path, the method, a name, a number or the JSON body is invalid.
    Refused(FixedReply),
    /// An allocation failed.
    Memory,
}

impl fmt::Display for AskFault {
    ghost use Rattle.std.specs.Prelude.{Some};
    ghost use Rattle.http_requests.specs.Asks.{fault_text};

    ghost output = { λ fault. Some (fault_text fault) };

    fn fmt<W: fmt::Write>(&self, f: &mut fmt::Formatter<W>) -> fmt::Result {
        f.write_str(match self {
            AskFault::Refused(_) => "the message is refused",
            AskFault::Memory => "out of memory",
        })
    }
}

impl Error for AskFault {}

impl From<FixedReply> for AskFault {
    ghost use Rattle.http_requests.specs.declared.ask.AskFault.TheVariants.{Refused};

    ghost from_gives = { λ why fault. fault ≡ Refused why };

    fn from(why: FixedReply) -> AskFault {
        AskFault::Refused(why)
    }
}

impl From<AllocError> for AskFault {
    ghost use Rattle.http_requests.specs.declared.ask.AskFault.TheVariants.{Memory};

    ghost from_gives = { λ _ fault. fault ≡ Memory };

    fn from(_error: AllocError) -> AskFault {
        AskFault::Memory
    }
}

/// Returns the request of `message`.
///
/// # Errors
///
/// - `Refused`: the fixed response for the first of these tests that fails: `NoRoute` for the path,
///   `OnlyMethod` for the method, `Malformed` for the names, the number and the body.
/// - `Memory`: an allocation fails.
pub fn to_ask(alloc: Global, message: Message) -> Result<Asked, AskFault>
    ensures asked { IsAsked (asked_of (as_parts message)) result }
    ensures ranged { IfOk result IsInRange }
{
    to_ask_by(&mut Routes::new(), alloc, message)
}

/// Returns the request of `message`, as `to_ask` does, with a router that many messages share.
pub(crate) fn to_ask_by(
    routes: &mut Routes,
    alloc: Global,
    message: Message,
) -> Result<Asked, AskFault>
    ensures asked { IsAsked (asked_of (as_parts message)) result }
    ensures ranged { IfOk result IsInRange }
{
    let Message {
        method,
        target,
        body,
    } = message;
    let found = routes.find(alloc, target.as_slice())?;
    let route = found.ok_or(FixedReply::NoRoute)?;
    if !has_method(method.as_slice(), route.method()) {
        return Err(AskFault::Refused(FixedReply::OnlyMethod(route.method())));
    }
    ask_in(alloc, route, body)
}

// Returns `true` if `text` is the name of `method`.
fn has_method(text: &[u8], method: Method) -> bool
    ensures { result ≡ bytes_eq text.now (method_text method) }
{
    let wanted = match method {
        Method::Get => http::Method::GET,
        Method::Post => http::Method::POST,
    };
    text == wanted.as_str().as_bytes()
}

// Returns the request of a message with this route and this body. Its method has been checked.
fn ask_in(alloc: Global, route: Route<'_>, body: Bytes) -> Result<Asked, AskFault>
    ensures asked { IsAsked (or_malformed (flaw_in (shown route.entry) body)
        (ask_in (shown route.entry) body)) result }
    ensures ranged { IfOk result IsInRange }
{
    match route {
        Route::Job { client, number } => job(alloc, client, number, body),
        Route::Import(path) => import(alloc, &path, body),
        Route::Batch(batch) => Ok(Asked::Account(Wanted::Batch(name_in(batch)?))),
        Route::Report(batch) => Ok(Asked::Account(Wanted::Report(name_in(batch)?))),
        Route::Blanks(product) => Ok(Asked::Account(Wanted::Blanks(name_in(product)?))),
    }
}

// Returns the request in a JSON body, with its client and request number.
fn job(alloc: Global, client: &[u8], number: &[u8], body: Bytes) -> Result<Asked, AskFault>
    ensures asked { IsAsked (or_malformed (flaw_in (Job client.now number.now) body)
        (ask_in (Job client.now number.now) body)) result }
    ensures ranged { IfOk result IsInRange }
{
    let client = name_in(client)?;
    let number = number_in(number).ok_or(FixedReply::Malformed(Flaw::PathNumber))?;
    let request = match call_of(alloc, body.as_slice())? {
        Ok(request) => request,
        Err(flaw) => return Err(AskFault::Refused(FixedReply::Malformed(flaw))),
    };
    let ask = job_ask(alloc, body.as_slice())?;
    Ok(Asked::Arrival(Arrival {
        client,
        number,
        ask,
        request,
    }))
}

// Returns the import of a batch file, with its client and request number.
fn import(alloc: Global, path: &ImportPath<'_>, body: Bytes) -> Result<Asked, AskFault>
    ensures asked { let route =
        Import path.now.client.now path.now.number.now path.now.batch.now path.now.product.now in
        IsAsked (or_malformed (flaw_in route body) (ask_in route body)) result }
    ensures ranged { IfOk result IsInRange }
{
    let client = name_in(path.client)?;
    let number = number_in(path.number).ok_or(FixedReply::Malformed(Flaw::PathNumber))?;
    let batch = name_in(path.batch)?;
    let product = name_in(path.product)?;
    let ask = import_ask(alloc, &batch, &product, body.as_slice())?;
    let request = Request::Import {
        batch,
        product,
        raw: body,
    };
    let request = Call::Job { request };
    Ok(Asked::Arrival(Arrival {
        client,
        number,
        ask,
        request,
    }))
}

fn name_in(text: &[u8]) -> Result<Name, FixedReply>
    ensures { result ≡ (if is_name text.now then Ok text.now else Err (Malformed PathName)) }
{
    Name::new(text).ok_or(FixedReply::Malformed(Flaw::PathName))
}

// Returns the request bytes of a request in JSON, which a repeat must have too: a byte 00 and the
// body.
fn job_ask(alloc: Global, body: &[u8]) -> Result<Bytes, AllocError>
    ensures { IfOk result (λ ask. ask ≡ ask_with [] body.now) }
{
    let mut ask = Vec::with_capacity(alloc, 1 + body.len())?;
    push_body(&mut ask, body)?;
    Ok(Bytes::from_vec(ask))
}

// Returns the request bytes of an import, which a repeat must have too: the part of the path after
// the request number, a byte 00, and the body.
fn import_ask(alloc: Global, batch: &Name, product: &Name, body: &[u8]) -> Result<Bytes, AllocError>
    ensures { IfOk result (λ ask. ask ≡ ask_with (import_tail batch.now product.now) body.now) }
{
    let mut ask = Vec::with_capacity(alloc, MOST_TAIL + 1 + body.len())?;
    push_import_tail(&mut ask, batch, product)?;
    push_body(&mut ask, body)?;
    Ok(Bytes::from_vec(ask))
}

/// Appends the part of an import's path after the request number to `text`.
///
/// # Errors
///
/// Returns `AllocError` if an allocation fails.
pub fn push_import_tail(text: &mut Vec<u8>, batch: &Name, product: &Name) -> Result<(), AllocError>
    ensures tail { OnOk result (text.new.items ≡ text.old.items
        ++ import_tail batch.now product.now) }
    ensures names { OnOk result (IsName batch.now × IsName product.now) }
{
    text.extend_from_slice(b"/batch/")?;
    text.extend_from_slice(batch.bytes())?;
    text.push(b'/')?;
    text.extend_from_slice(product.bytes())
}

// Appends a byte 00 and the body.
fn push_body(ask: &mut Vec<u8>, body: &[u8]) -> Result<(), AllocError>
    ensures { OnOk result (ask.new.items ≡ ask.old.items ++ 0 ∷ body.now) }
{
    ask.push(0)?;
    ask.extend_from_slice(body)
}
