//! The flaws of a malformed message, for event lines. No response depends on them.
ghost use Rattle.std.specs.Prelude.{◌≡◌};
ghost use Rattle.http_messages.specs.Flaws.{member_of, name_of, word_of};

/// A member of requests in JSON (this project's profile).
#[derive(Clone, Copy, Debug, PartialEq, Eq)]
pub enum Member {
    /// The kind of request.
    Do,
    /// A batch.
    Batch,
    /// The serial of a blank.
    Blank,
    /// Whether a product has the EMV record check.
    Check,
    /// The number of blanks of a lot.
    Count,
    /// The first serial of a lot.
    First,
    /// The index of a command.
    Index,
    /// A lot.
    Lot,
    /// The lowest five bits of P1 of a product.
    Low,
    /// The maximum size of the data of a command of a product.
    Max,
    /// A product.
    Product,
    /// A record.
    Record,
    /// The number of a session.
    Session,
    /// A status word.
    Sw,
    /// The last request number of a release.
    Upto,
}

impl Member {
    /// Returns the name of the member.
    pub fn name(self) -> &'static str
        ensures { result.now ≡ name_of self }
    {
        match self {
            Member::Do => "do",
            Member::Batch => "batch",
            Member::Blank => "blank",
            Member::Check => "check",
            Member::Count => "count",
            Member::First => "first",
            Member::Index => "index",
            Member::Lot => "lot",
            Member::Low => "low",
            Member::Max => "max",
            Member::Product => "product",
            Member::Record => "record",
            Member::Session => "session",
            Member::Sw => "sw",
            Member::Upto => "upto",
        }
    }
}

/// The first test that a malformed message fails (this project's profile).
#[derive(Clone, Copy, Debug, PartialEq, Eq)]
pub enum Flaw {
    /// The head contains an LF without a CR before it.
    BareLf,
    /// The whole head doesn't match the grammar of HTTP/1.1 (RFC 9112).
    Grammar,
    /// The head has a field `Transfer-Encoding`.
    TransferEncoding,
    /// The head has several fields `Content-Length`, or a `Content-Length` that isn't a decimal
    /// number.
    ContentLength,
    /// A name in the path is invalid.
    PathName,
    /// The request number in the path is invalid.
    PathNumber,
    /// The body isn't an object in JSON (RFC 8259), or has a member that no request has.
    Body,
    /// The request needs this member, and lacks it.
    Missing(Member),
    /// The value of this member is invalid.
    Value(Member),
    /// This member belongs to other requests.
    Additional(Member),
}

impl Flaw {
    /// Returns the printed word.
    pub fn word(self) -> &'static str
        ensures { result.now ≡ word_of self }
    {
        match self {
            Flaw::BareLf => "bare-lf",
            Flaw::Grammar => "grammar",
            Flaw::TransferEncoding => "transfer-encoding",
            Flaw::ContentLength => "content-length",
            Flaw::PathName => "name",
            Flaw::PathNumber => "number",
            Flaw::Body => "body",
            Flaw::Missing(_) => "missing",
            Flaw::Value(_) => "value",
            Flaw::Additional(_) => "additional",
        }
    }

    /// Returns the member with the flaw, if there is one.
    pub fn member(self) -> Option<Member>
        ensures { result ≡ member_of self }
    {
        match self {
            Flaw::Missing(member) => Some(member),
            Flaw::Value(member) => Some(member),
            Flaw::Additional(member) => Some(member),
            _ => None,
        }
    }
}
