//! The audit rules and their names.
ghost use Rattle.std.specs.Prelude.{◌≡◌, Some};
ghost use Rattle.audit_rows.specs.RuleNames.{name_of};

use std::fmt;

/// An audit rule: a condition that the rows of sound contents obey. The variants are in the order
/// in which the rules are checked.
#[derive(Clone, Copy, Debug, PartialEq, Eq)]
pub enum Rule {
    /// The products: at most 256, with values in range and distinct names.
    Products,
    /// The lots: at most 4,096, with values in range, existing products, distinct names and
    /// distinct serials.
    Lots,
    /// The batches: at most 4,096, with distinct names.
    Batches,
    /// The ids of batches, which are 1, 2, ..
    BatchIds,
    /// The ids of sessions, which are 1, 2, ..
    SessionIds,
    /// The batch of each record, grouping and session, which exists.
    Owners,
    /// The batches, records, groupings and sessions, which agree with the batch files and the
    /// status words.
    Files,
    /// The status words: each has a session, and the places in a session are 0, 1, ..
    Words,
    /// The remakes, as many as each record counts, with the turns 1, 2, ..
    Remakes,
    /// The running sessions, at most one for each machine.
    Machines,
    /// The counter of each lot, which is the number of its discarded blanks.
    LotCounters,
    /// The serials of blanks, which are distinct.
    BlankTwice,
    /// The lot of each blank, which contains its serial.
    BlankLots,
    /// The blanks that aren't discarded, which are exactly the blanks of the sessions.
    OpenedBlanks,
    /// The client and the value of each release mark.
    Marks,
    /// The client, the request number and the status of each kept reply. The status is 200 or 409.
    Replies,
    /// The clients of release marks, which are distinct.
    MarkTwice,
    /// The request number of each kept reply, which is above the release mark of its client.
    ReleasedReplies,
    /// The request numbers of the kept replies of a client, which are distinct.
    ReplyTwice,
}

impl Rule {
    /// Returns the name of the rule in event lines and in the output of `shopbook check`.
    pub fn name(self) -> &'static str
        ensures { result.now ≡ name_of self }
    {
        match self {
            Rule::Products => "products",
            Rule::Lots => "lots",
            Rule::Batches => "batches",
            Rule::BatchIds => "batch-ids",
            Rule::SessionIds => "session-ids",
            Rule::Owners => "owners",
            Rule::Files => "files",
            Rule::Words => "words",
            Rule::Remakes => "remakes",
            Rule::Machines => "machines",
            Rule::LotCounters => "lot-counters",
            Rule::BlankTwice => "blank-twice",
            Rule::BlankLots => "blank-lots",
            Rule::OpenedBlanks => "opened-blanks",
            Rule::Marks => "marks",
            Rule::Replies => "replies",
            Rule::MarkTwice => "mark-twice",
            Rule::ReleasedReplies => "released-replies",
            Rule::ReplyTwice => "reply-twice",
        }
    }
}

impl fmt::Display for Rule {
    ghost output = { λ rule. Some (name_of rule) };

    fn fmt<W: fmt::Write>(&self, f: &mut fmt::Formatter<W>) -> fmt::Result {
        f.write_str(self.name())
    }
}
