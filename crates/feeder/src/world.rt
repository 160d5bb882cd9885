//! The events of a shop floor, and the theorem about every list of them.
ghost use Rattle.std.specs.Prelude.{All, Option};
ghost use Rattle.job_facts.specs.declared.reply.Reply.{Reply};
ghost use Rattle.arrivals.specs.HttpReplies.{HttpReply};
ghost use Rattle.feeder.specs.Reading.{IsReadable, ReadsBack};
ghost use Rattle.feeder.specs.ShopFloor.{AcknowledgedIsDecided, CardsAreCharged, DecidedIsMeant};
ghost use Rattle.feeder.specs.ShopFloor.{DecidedIsAnswered, GoodCardsAreWhole, InFlight, IsEvent};
ghost use Rattle.feeder.specs.ShopFloor.{MarksReachReleases, OldBootsAreOver, PutOutIsCounted};
ghost use Rattle.feeder.specs.ShopFloor.{RecordsHaveOneCard, ReleasesAreKept, RepeatsGetTheirReply};
ghost use Rattle.feeder.specs.World.{world_after};

use job_facts::Arrival;
use store_data::Name;

/// The moment at which the server crashes while it handles an arrival.
#[derive(Clone, Copy, Debug, PartialEq, Eq)]
pub enum Stop {
    /// The server doesn't crash.
    No,
    /// The server crashes before the commit.
    Before,
    /// The server crashes after the commit and before the reply.
    After,
}

/// An event on a shop floor. An event with a machine, card, packet or reply that doesn't exist
/// changes nothing.
#[derive(Drop)]
pub enum Event {
    /// A card is inserted into a machine.
    Insert {
        machine: Name,
        batch: Name,
        /// The serial number of the card, of at most 18 digits.
        blank: u64,
    },
    /// A machine sends its pending request as a packet.
    Send {
        machine: Name,
    },
    /// A packet arrives, for the first time or again. Packets are numbered from 0.
    Arrive {
        packet: u64,
        stop: Stop,
    },
    /// A reply reaches the machine that sent the request. Replies are numbered from 0.
    Deliver {
        reply: u64,
    },
    /// The card in a machine returns a status word.
    Card {
        machine: Name,
        sw: u16,
    },
    /// A machine loses its state and starts. A boot number that it had before changes nothing.
    Power {
        machine: Name,
        /// The boot number, 1 to 9,999,999,999.
        boot: u64,
    },
    /// A request of an office arrives. It is neither an opening nor an answer, and no machine of
    /// the list of events has the name of its client.
    Office {
        arrival: Arrival,
        stop: Stop,
    },
}

/// Lemma: the shop-floor theorem holds for every list of events, including crashes of the server.
/// The function does nothing.
pub fn every_world(events: &[Event])
    requires { All IsEvent events.now }
    // A card that is counted good received exactly the commands of its record, each once, in order.
    ensures whole { (reads : HttpReply → Option Reply) → ReadsBack reads
        → GoodCardsAreWhole (world_after reads events.now) }
    // A card that received any command is charged to exactly one session. It received a prefix of
    // the commands of that session's record.
    ensures charged { (reads : HttpReply → Option Reply) → ReadsBack reads
        → CardsAreCharged (world_after reads events.now) }
    // No record has two cards that are counted good.
    ensures one_card { (reads : HttpReply → Option Reply) → ReadsBack reads
        → RecordsHaveOneCard (world_after reads events.now) }
    // A card that was ejected as good is counted good.
    ensures put_out { (reads : HttpReply → Option Reply) → ReadsBack reads
        → PutOutIsCounted (world_after reads events.now) }
    // Once the release of a machine's boot is accepted, no packet of an earlier boot of that
    // machine changes the contents.
    ensures over { (reads : HttpReply → Option Reply) → ReadsBack reads
        → OldBootsAreOver (world_after reads events.now) }
    // The contents are those after the decided arrivals, regardless of all crashes. Each decided
    // arrival got the reply that it has after the arrivals before it.
    ensures meant { (reads : HttpReply → Option Reply)
        → DecidedIsMeant (world_after reads events.now) }
    ensures answered { (reads : HttpReply → Option Reply)
        → DecidedIsAnswered (world_after reads events.now) }
    // Every acknowledged arrival was decided. A repeat gets the same reply again, unless its number
    // is released.
    ensures acknowledged { (reads : HttpReply → Option Reply)
        → AcknowledgedIsDecided (world_after reads events.now) }
    ensures repeats { (reads : HttpReply → Option Reply)
        → RepeatsGetTheirReply (world_after reads events.now) }
    // Every packet, whether it arrives for the first time or again, has a released number, is a
    // first arrival, or gets the kept reply.
    ensures in_flight { (reads : HttpReply → Option Reply) → ReadsBack reads
        → InFlight (world_after reads events.now) }
    // An acknowledged release of a machine is in force.
    ensures releases { (reads : HttpReply → Option Reply) → ReadsBack reads
        → ReleasesAreKept (world_after reads events.now) }
    // The release mark of every client, including an office, has reached each of its accepted
    // releases, if all decided arrivals with the client, the number and the request bytes of that
    // release were the same request.
    ensures marks { (reads : HttpReply → Option Reply)
        → MarksReachReleases (world_after reads events.now) }
    // A reading of replies as these clauses assume it exists.
    ensures reading { IsReadable }
{}
