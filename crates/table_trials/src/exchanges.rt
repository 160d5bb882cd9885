//! Helpers of tests: requests to a store, and its replies. They repeat calls that run out of
//! memory.
ghost use Rattle.std.specs.Prelude.{IfOk};
ghost use Rattle.job_facts.specs.Requests.{IsArrival};
ghost use Rattle.http_requests.specs.Asks.{IsInRange};

use arrivals::Kept;
use http_messages::{FixedReply, Flaw, Pieces, Reading, read_message};
use http_requests::{AskFault, Asked, to_ask};
use job_facts::Arrival;
use std::alloc::{AllocError, Global};
use std::process::Abort;
use std::test::Fail;
use worked_files::post;

/// The path and the body of a request, and the status and the body of its reply.
#[derive(Clone, Copy)]
pub(crate) struct Exchange(
    pub(crate) &'static str,
    pub(crate) &'static str,
    pub(crate) u16,
    pub(crate) &'static str,
);

impl Exchange {
    /// Returns the bytes of the HTTP message with the request.
    pub(crate) fn message(&self, alloc: Global) -> Result<Vec<u8>, AllocError> {
        let Exchange(target, body, ..) = *self;
        post(alloc, target, body.as_bytes())
    }
}

/// Evaluates a call, and again if it fails. Returns the last result.
macro_rules! at_last {
    ($call:expr) => {
        match $call {
            Err(_) => $call,
            answer => answer,
        }
    };
}

pub(crate) use at_last;

// Parses the request in `bytes`, which are read in pieces of at most 512 bytes.
fn asked(alloc: Global, bytes: &[u8]) -> Result<Asked, AskFault>
    ensures { IfOk result IsInRange }
{
    match read_message(alloc, &mut Pieces::new(bytes, 512)) {
        Reading::Message(message) => to_ask(alloc, message),
        Reading::Broken => Err(AskFault::Refused(FixedReply::Malformed(Flaw::Grammar))),
        Reading::Refused(why) => Err(AskFault::Refused(why)),
        Reading::Memory => Err(AskFault::Memory),
    }
}

/// Parses the request of `exchange` and returns it as an arrival.
pub(crate) fn arrival(alloc: Global, exchange: &Exchange) -> Result<Arrival, Fail>
    ensures { IfOk result IsArrival }
{
    let bytes = at_last!(exchange.message(alloc))?;
    match at_last!(asked(alloc, bytes.as_slice()))? {
        Asked::Arrival(arrival) => Ok(arrival),
        Asked::Account(_) => Err(Fail::new("an account")),
    }
}

/// Checks that `kept` has the status and the body of the reply of `exchange`.
pub(crate) fn check_reply(rt: &impl Abort, exchange: &Exchange, kept: &Kept) {
    let Exchange(target, asked, status, body) = *exchange;
    assert_eq!(rt; kept.status, status, "{target} {asked}");
    assert_eq!(rt; kept.body.as_slice(), body.as_bytes(), "{target} {asked}");
}
