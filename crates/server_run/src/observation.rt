//! The observation of a served connection, from which its event lines are made.
ghost use Rattle.std.specs.Prelude.{◌≡◌};

use crate::kept::{REPLY_BYTES, REQUEST_BYTES};
use crate::words::status_digits;
use http_requests::Meaning;
use job_facts::{FaultCounts, StoreFault};
use server::{Beginning, End, Served};
use store_data::ValidProduct;

/// The observation of a served connection.
#[derive(Drop)]
pub struct Observation {
    /// The first bytes that were read from the connection.
    pub request: Beginning<REQUEST_BYTES>,
    /// The first bytes of the response. If a write failed, they may include bytes that the writer
    /// didn't take.
    pub reply: Beginning<REPLY_BYTES>,
    /// The outcome of the connection.
    pub served: Served,
    /// The meaning of its bytes.
    pub meaning: Meaning,
    /// The product of a refused import, if it was read.
    pub product: Option<ValidProduct>,
    /// The fault counters of the store before the connection.
    pub before: FaultCounts,
    /// The fault counters of the store after the connection.
    pub after: FaultCounts,
}

impl Observation {
    ghost use Rattle.server_run.specs.ConnectionLines.{fails_after, is_accepted};
    ghost use Rattle.server_run.specs.ConnectionLines.{is_unavailable, was_served};
    ghost use Rattle.server_run.specs.Observations.{fault_between};
    ghost use Rattle.server_run.specs.Words.{status_digits};

    /// Returns the digits of the response's status. The text is empty if the known bytes don't
    /// contain it.
    pub fn status(&self) -> &str
        ensures { result.now ≡ status_digits self.now.reply }
    {
        status_digits(self.reply.as_slice())
    }

    /// Returns `true` if the response has status 200 and was written completely.
    pub fn is_accepted(&self) -> bool
        ensures { result ≡ is_accepted self.now }
    {
        self.served.end == End::Answered && self.status() == "200"
    }

    /// Returns `true` if the response has status 503, because the store or an allocation failed.
    pub fn is_unavailable(&self) -> bool
        ensures { result ≡ is_unavailable self.now }
    {
        self.status() == "503"
    }

    /// Returns `true` if the store worked: an arrival was decided, or the response has status 200
    /// or 409.
    pub fn was_served(&self) -> bool
        ensures { result ≡ was_served self.now }
    {
        self.served.decided || self.status() == "200" || self.status() == "409"
    }

    /// Returns `true` if the store is failing after the connection. `is_failing` tells whether it
    /// was failing before. After a 503, the store is failing until it serves a connection again.
    pub fn fails_after(&self, is_failing: bool) -> bool
        ensures { result ≡ fails_after is_failing self.now }
    {
        self.is_unavailable() || is_failing && !self.was_served()
    }

    /// Returns the fault of the store, from the counters before and after the connection. If no
    /// counter has changed, it is `Memory`.
    pub fn fault(&self) -> StoreFault
        ensures { result ≡ fault_between self.now.before self.now.after }
    {
        if self.before.full < self.after.full {
            StoreFault::Full
        } else if self.before.failed < self.after.failed {
            StoreFault::Device
        } else {
            StoreFault::Memory
        }
    }
}
