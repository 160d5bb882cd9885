//! The state of a feed: a feeder, its cards, and its output.
ghost use Rattle.std.specs.Prelude.{◌≡◌, ◌<◌, ◌≤◌, List, ℕ, IfOk, OnOk, Some, drop, map};
ghost use Rattle.std.specs.Prelude.{option_map};
ghost use Rattle.text_io.specs.Lines.{lines as lines_in};
ghost use Rattle.feeder.specs.Table.{asked};
ghost use Rattle.feeder.specs.Table.{Eject, after_card};
ghost use Rattle.feeding.specs.Cards.{next_word};
ghost use Rattle.feeding.specs.Events.{bad_by, cards_in, rejection, without_numbers};
ghost use Rattle.feeding.specs.Feeds.{applies, at_first, by_reply, counted, draws, hears, is_asked};
ghost use Rattle.feeding.specs.Feeds.{puts_out, settled};
ghost use Rattle.feeding.specs.Views.{AsksUnder, IsRejected, feed_view};

use crate::card::{Card, card_of, push_applied, push_end};
use feeder::{Act, Feeder, Stand};
use job_facts::Reply;
use std::alloc::{AllocError, Global};
use store_data::Name;

/// The reason why the inserted card was rejected.
#[derive(Clone, Copy)]
pub(crate) enum Rejection {
    /// A reply of the server.
    ByReply,
    /// The boot had no request number left to report the status word.
    Exhausted,
}

/// The cards that were rejected after a try.
#[derive(Drop)]
pub(crate) struct Rejected<'a> {
    /// The reason for the inserted card, if it was rejected.
    pub(crate) card: Option<Rejection>,
    /// The lines of the cards for which the boot had too few numbers left, up to a malformed line.
    pub(crate) lines: &'a [&'a [u8]],
}

/// The start of a machine, and the batch that its cards are for.
#[derive(Clone, Copy)]
pub struct MachineStart {
    pub machine: Name,
    /// A boot number that the machine never had before, 1 to 9,999,999,999.
    pub boot: u64,
    pub batch: Name,
}

/// A feed: the feeder, the last inserted card, all lines, the number of lines taken, and the output
/// of the last try.
#[derive(Drop)]
pub(crate) struct Feed<'a> {
    pub(crate) feeder: Feeder,
    batch: Name,
    pub(crate) card: Card,
    pub(crate) lines: &'a [&'a [u8]],
    pub(crate) at: usize,
    pub(crate) tries: u32,
    pub(crate) text: Vec<u8>,
}

impl<'a> Feed<'a> {
    /// Creates the feed of a machine that starts. `lines` are its cards.
    pub(crate) fn new(alloc: Global, start: MachineStart, lines: &'a [&'a [u8]]) -> Feed<'a>
        requires least { 1 ≤ start.boot }
        requires most { start.boot ≤ 9999999999 }
        ensures { (raw : List ℕ) → map (λ l. l.now) lines.now ≡ lines_in raw
            → feed_view result ≡ at_first start.machine start.boot start.batch raw }
    {
        Feed {
            feeder: Feeder::start(start.machine, start.boot),
            batch: start.batch,
            card: Card::new(0, Vec::new(alloc)),
            lines,
            at: 0,
            tries: 0,
            text: Vec::new(alloc),
        }
    }

    /// Continues after a try to send the pending request, which has the number `number`.
    #[tactic(auto, using(crate::proofs::Runs::hears_is))]
    pub(crate) fn hear(
        &mut self,
        alloc: Global,
        number: u64,
        reply: Option<&Reply>,
    ) -> Result<Rejected<'a>, AllocError>
        requires few { self.old.tries < 10 }
        requires asks { AsksUnder number (feed_view self.old) }
        ensures feed { OnOk result (feed_view self.new
            ≡ hears (feed_view self.old) (option_map (λ r. r.now) reply.entry)) }
        ensures rejected { IfOk result (λ out. IsRejected (feed_view self.old) number
            (option_map (λ r. r.now) reply.entry) out) }
    {
        self.text.clear();
        let card = self.take(alloc, number, reply)?;
        let lines = self.settle(alloc)?;
        self.count(number);
        Ok(Rejected { card, lines })
    }

    // Inserts the next card if the feeder is idle. If the boot has too few numbers left for any
    // card, all remaining lines are returned, otherwise none.
    fn settle(&mut self, alloc: Global) -> Result<&'a [&'a [u8]], AllocError>
        ensures feed { OnOk result (feed_view self.new ≡ settled (feed_view self.old)) }
        ensures lines { IfOk result (λ lines. cards_in (map (λ l. l.now) lines.now)
            ≡ without_numbers (feed_view self.old)) }
    {
        let left = self.left();
        self.go_on(alloc)?;
        match self.feeder.stand() {
            Stand::Idle => Ok(left),
            _ => Ok(&left[..0]),
        }
    }

    // Returns the lines of the cards that weren't inserted yet.
    fn left(&self) -> &'a [&'a [u8]]
        ensures { result.now ≡ drop self.now.at self.now.lines.now }
    {
        &self.lines[self.at.min(self.lines.len())..]
    }

    fn go_on(&mut self, alloc: Global) -> Result<(), AllocError>
        ensures { OnOk result (feed_view self.new ≡ settled (feed_view self.old)) }
    {
        match self.feeder.stand() {
            Stand::Idle => self.draw(alloc),
            Stand::Asks { .. } | Stand::HasCommand { .. } | Stand::Stale => Ok(()),
        }
    }

    // Handles the reply, if there is one.
    fn take(
        &mut self,
        alloc: Global,
        number: u64,
        reply: Option<&Reply>,
    ) -> Result<Option<Rejection>, AllocError>
        ensures feed { OnOk result (feed_view self.new
            ≡ by_reply (feed_view self.old) number (option_map (λ r. r.now) reply.entry)) }
        ensures card { IfOk result (λ card. card
            ≡ rejection (feed_view self.old) number (option_map (λ r. r.now) reply.entry)) }
    {
        match reply {
            Some(reply) => self.act_on(alloc, number, reply),
            None => Ok(None),
        }
    }

    // A try had no effect if the same request number is still pending.
    fn count(&mut self, number: u64)
        requires few { self.old.tries < 10 }
        ensures { feed_view self.new ≡ counted number (feed_view self.old) }
    {
        if self.asks(number) {
            self.tries += 1;
        } else {
            self.tries = 0;
        }
    }

    fn asks(&self, number: u64) -> bool
        ensures { result ≡ is_asked number (asked (feed_view self.now).feeder) }
    {
        match self.feeder.ask() {
            Some((asked, _)) => asked == number,
            None => false,
        }
    }

    // Performs the action that the feeder returned.
    fn act_on(
        &mut self,
        alloc: Global,
        number: u64,
        reply: &Reply,
    ) -> Result<Option<Rejection>, AllocError>
        ensures feed { OnOk result (feed_view self.new
            ≡ by_reply (feed_view self.old) number (Some reply.now)) }
        ensures card { IfOk result (λ card. card
            ≡ rejection (feed_view self.old) number (Some reply.now)) }
    {
        match self.feeder.reply(number, reply) {
            Act::Apply(command) => self.apply(alloc, command),
            Act::Eject(good) => self.put_out(good, Rejection::ByReply),
            Act::Send | Act::Wait => Ok(None),
        }
    }

    // The card receives `command` and returns its next status word.
    fn apply(&mut self, alloc: Global, command: &[u8]) -> Result<Option<Rejection>, AllocError>
        ensures feed { OnOk result (feed_view self.new
            ≡ applies (feed_view self.old) command.now) }
        ensures card { IfOk result (λ card. card ≡ bad_by Rejection.Exhausted
            (after_card self.old.feeder (next_word (feed_view self.old).card)).1) }
    {
        let sw = self.card.give();
        push_applied(alloc, &mut self.text, self.card.serial, command, sw)?;
        match self.feeder.card(sw) {
            Act::Eject(good) => self.put_out(good, Rejection::Exhausted),
            Act::Apply(_) | Act::Send | Act::Wait => Ok(None),
        }
    }

    // The card is ejected as good, or rejected because of `why`.
    fn put_out(&mut self, good: bool, why: Rejection) -> Result<Option<Rejection>, AllocError>
        ensures feed { OnOk result (feed_view self.new ≡ puts_out (feed_view self.old) good) }
        ensures card { IfOk result (λ card. card ≡ bad_by why (Eject good)) }
    {
        push_end(&mut self.text, self.card.serial, good)?;
        Ok(if good { None } else { Some(why) })
    }

    // Inserts the next card. A card is rejected if the boot has too few numbers left for it.
    fn draw(&mut self, alloc: Global) -> Result<(), AllocError>
        ensures { OnOk result (feed_view self.new
            ≡ draws (feed_view self.old) (feed_view self.old).left) }
    {
        while self.at < self.lines.len() {
            let Some(card) = card_of(alloc, self.lines[self.at])? else {
                return Ok(());
            };
            let put_in = self.feeder.insert(self.batch, card.serial);
            self.at += 1;
            if put_in.is_ok() {
                self.card = card;
                return Ok(());
            }
            push_end(&mut self.text, card.serial, false)?;
        }
        Ok(())
    }
}
