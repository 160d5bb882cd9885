//! Refusals, with their numbers and names.
ghost use Rattle.std.specs.Prelude.{◌≡◌, IfSome, Some};
ghost use Rattle.job_facts.specs.Refusals.{code_of, name_of, refusal_of};
ghost use Rattle.job_facts.specs.declared.refusal.Refusal.{Refusal as RefusalValue};

use std::error::Error;
use std::fmt;

/// The number of the refusal machine-busy, whose reply has the running session of the machine.
pub const MACHINE_BUSY: u8 = 61;

/// The number of the refusal number-released, whose reply has the release mark of the client.
pub const NUMBER_RELEASED: u8 = 73;

/// The reason why a request is refused (this project's profile).
#[derive(Clone, Copy, Debug, PartialEq, Eq)]
pub enum Refusal {
    /// The product exists with a different `max`, `low` or `check`.
    ProductDiffers = 51,
    /// The product doesn't exist.
    ProductUnknown = 52,
    /// The lot exists with a different product or range of serials.
    LotDiffers = 53,
    /// One of the serials is already in a lot.
    SerialsOverlap = 54,
    /// The batch exists with a different product or different bytes.
    BatchDiffers = 55,
    /// The batch doesn't exist.
    BatchUnknown = 56,
    /// The batch is closed.
    BatchClosed = 57,
    /// No lot contains the blank.
    BlankUnknown = 58,
    /// The blank has a different product than the batch.
    BlankOfOtherProduct = 59,
    /// The blank is charged: it was opened or discarded before.
    BlankUsed = 60,
    /// No record of the batch is waiting.
    NothingWaiting = 62,
    /// The session doesn't exist.
    SessionUnknown = 63,
    /// Another client opened the session.
    NotYours = 64,
    /// The session is good or spoiled.
    SessionEnded = 65,
    /// The index isn't the index of the command sent last.
    OutOfTurn = 66,
    /// The batch doesn't contain the record.
    RecordUnknown = 67,
    /// The record isn't failed.
    NotFailed = 68,
    /// The record is neither waiting nor failed.
    NotWithdrawable = 69,
    /// A record of the batch is neither good nor withdrawn.
    NotFinished = 70,
    /// The maximum number of products, lots or batches exists.
    Limit = 71,
    /// The request number was used with different request bytes.
    NumberReused = 72,
    /// The release includes its own number or a higher one.
    ReleaseTooFar = 74,
}

impl Refusal {
    /// Returns the number of the refusal: 51 to 74, except 61 and 73, whose replies have a session
    /// or a release mark.
    pub fn code(self) -> u8
        ensures { result ≡ code_of self }
    {
        self as u8
    }

    /// Returns the refusal with the number `code`, or `None` if there isn't one.
    #[tactic(auto, unfolding(crate::specs::Refusals::refusal_of))]
    pub fn from_code(code: u64) -> Option<Refusal>
        ensures is { result ≡ refusal_of code }
        ensures has { IfSome result (λ refusal. code_of refusal ≡ code) }
        ensures all { (refusal : RefusalValue) → code_of refusal ≡ code → result ≡ Some refusal }
    {
        match code {
            51 => Some(Refusal::ProductDiffers),
            52 => Some(Refusal::ProductUnknown),
            53 => Some(Refusal::LotDiffers),
            54 => Some(Refusal::SerialsOverlap),
            55 => Some(Refusal::BatchDiffers),
            56 => Some(Refusal::BatchUnknown),
            57 => Some(Refusal::BatchClosed),
            58 => Some(Refusal::BlankUnknown),
            59 => Some(Refusal::BlankOfOtherProduct),
            60 => Some(Refusal::BlankUsed),
            62 => Some(Refusal::NothingWaiting),
            63 => Some(Refusal::SessionUnknown),
            64 => Some(Refusal::NotYours),
            65 => Some(Refusal::SessionEnded),
            66 => Some(Refusal::OutOfTurn),
            67 => Some(Refusal::RecordUnknown),
            68 => Some(Refusal::NotFailed),
            69 => Some(Refusal::NotWithdrawable),
            70 => Some(Refusal::NotFinished),
            71 => Some(Refusal::Limit),
            72 => Some(Refusal::NumberReused),
            74 => Some(Refusal::ReleaseTooFar),
            _ => None,
        }
    }

    /// Returns the name of the refusal in replies (this project's profile).
    pub fn name(self) -> &'static str
        ensures { result.now ≡ name_of self }
    {
        match self {
            Refusal::ProductDiffers => "product-differs",
            Refusal::ProductUnknown => "product-unknown",
            Refusal::LotDiffers => "lot-differs",
            Refusal::SerialsOverlap => "serials-overlap",
            Refusal::BatchDiffers => "batch-differs",
            Refusal::BatchUnknown => "batch-unknown",
            Refusal::BatchClosed => "batch-closed",
            Refusal::BlankUnknown => "blank-unknown",
            Refusal::BlankOfOtherProduct => "blank-of-other-product",
            Refusal::BlankUsed => "blank-used",
            Refusal::NothingWaiting => "nothing-waiting",
            Refusal::SessionUnknown => "session-unknown",
            Refusal::NotYours => "not-yours",
            Refusal::SessionEnded => "session-ended",
            Refusal::OutOfTurn => "out-of-turn",
            Refusal::RecordUnknown => "record-unknown",
            Refusal::NotFailed => "not-failed",
            Refusal::NotWithdrawable => "not-withdrawable",
            Refusal::NotFinished => "not-finished",
            Refusal::Limit => "limit",
            Refusal::NumberReused => "number-reused",
            Refusal::ReleaseTooFar => "release-too-far",
        }
    }
}

impl fmt::Display for Refusal {
    ghost output = { λ refusal. Some (name_of refusal) };

    fn fmt<W: fmt::Write>(&self, f: &mut fmt::Formatter<W>) -> fmt::Result {
        f.write_str(self.name())
    }
}

impl Error for Refusal {}
