//! The lists of the store, and their elements.
ghost use Rattle.std.specs.Prelude.{◌≡◌, OnErr, OnOk};
ghost use Rattle.job_facts.specs.Facts.{ended, no_facts, worded};

use job_facts::Lot;
use std::alloc::{AllocError, Global};
use std::marker::Model;
use store_data::{Bytes, Name, ValidProduct};

/// A batch, with the bytes of its file.
#[derive(Drop)]
pub(crate) struct KeptBatch {
    pub(crate) name: Name,
    pub(crate) product: Name,
    pub(crate) raw: Bytes,
}

impl Model for KeptBatch {
    ghost use Rattle.job_facts.specs.Facts.{Batch};

    ghost Value = { Batch };

    ghost view = { λ b. record { name = b.name; product = b.product; raw = b.raw } };
}

/// The session of a card.
#[derive(Drop)]
pub(crate) struct KeptSession {
    pub(crate) machine: Name,
    pub(crate) batch: Name,
    pub(crate) rec: Name,
    pub(crate) blank: u64,
    pub(crate) words: Vec<u16>,
    pub(crate) ended: bool,
}

impl Model for KeptSession {
    ghost use Rattle.job_facts.specs.Facts.{Session};

    ghost Value = { Session };

    ghost view = { λ s. record {
      machine = s.machine;
      batch = s.batch;
      rec = s.rec;
      blank = s.blank;
      words = s.words.items;
      ended = s.ended;
    } };
}

impl KeptSession {
    pub(crate) fn add_word(&mut self, sw: u16) -> Result<(), AllocError>
        ensures ok { OnOk result (self.new ≡ worded sw self.old) }
        ensures err { OnErr result (self.new ≡ self.old) }
    {
        self.words.push(sw)?;
        Ok(())
    }

    pub(crate) fn end(&mut self)
        ensures { self.new ≡ ended self.old }
    {
        self.ended = true;
    }
}

/// The batch and the name of a record.
#[derive(Drop)]
pub(crate) struct KeptRecord {
    pub(crate) batch: Name,
    pub(crate) rec: Name,
}

impl Model for KeptRecord {
    ghost use Rattle.job_facts.specs.Facts.{RecordName};

    ghost Value = { RecordName };

    ghost view = { λ r. record { batch = r.batch; rec = r.rec } };
}

/// The facts, as one list for each kind.
#[derive(Drop)]
pub(crate) struct FactLists {
    pub(crate) products: Vec<ValidProduct>,
    pub(crate) lots: Vec<Lot>,
    pub(crate) batches: Vec<KeptBatch>,
    pub(crate) sessions: Vec<KeptSession>,
    pub(crate) discarded: Vec<u64>,
    pub(crate) remakes: Vec<KeptRecord>,
    pub(crate) withdrawn: Vec<KeptRecord>,
    pub(crate) closed: Vec<Name>,
}

impl Model for FactLists {
    ghost use Rattle.job_facts.specs.Facts.{Facts};

    ghost Value = { Facts };

    ghost view = { λ f. record {
      products = f.products.items;
      lots = f.lots.items;
      batches = f.batches.items;
      sessions = f.sessions.items;
      discarded = f.discarded.items;
      remakes = f.remakes.items;
      withdrawn = f.withdrawn.items;
      closed = f.closed.items;
    } };
}

impl FactLists {
    /// Creates empty lists.
    pub(crate) fn new(alloc: Global) -> FactLists
        ensures { result ≡ no_facts }
    {
        FactLists {
            products: Vec::new(alloc),
            lots: Vec::new(alloc),
            batches: Vec::new(alloc),
            sessions: Vec::new(alloc),
            discarded: Vec::new(alloc),
            remakes: Vec::new(alloc),
            withdrawn: Vec::new(alloc),
            closed: Vec::new(alloc),
        }
    }
}

/// A kept reply, with its client, its request number and the request bytes.
#[derive(Drop)]
pub(crate) struct KeptRow {
    pub(crate) client: Name,
    pub(crate) number: u64,
    pub(crate) ask: Bytes,
    pub(crate) status: u16,
    pub(crate) body: Bytes,
}

impl Model for KeptRow {
    ghost use Rattle.job_facts.specs.Contents.{Entry};

    ghost Value = { Entry };

    ghost view = { λ r. record {
      client = r.client;
      number = r.number;
      ask = r.ask;
      status = r.status;
      body = r.body;
    } };
}

/// The release mark of a client.
#[derive(Drop)]
pub(crate) struct KeptMark {
    pub(crate) client: Name,
    pub(crate) upto: u64,
}

impl Model for KeptMark {
    ghost use Rattle.job_facts.specs.Contents.{Mark};

    ghost Value = { Mark };

    ghost view = { λ m. record { client = m.client; upto = m.upto } };
}
