//! The rows of the store's tables as they are read. Names and byte strings can have any contents.

use job_facts::{RecordState, SessionState};
use std::marker::Model;
use store_data::Enc;

/// A row of `product`.
#[derive(Drop)]
pub struct StoredProduct {
    pub name: Vec<u8>,
    pub max: u8,
    pub low: u8,
    pub checked: bool,
}

impl Model for StoredProduct {
    ghost use Rattle.store_data.specs.declared.row.Product.{Product};

    ghost Value = { Product };

    ghost view = { λ p. record {
      code = p.name.items;
      max = p.max;
      low = p.low;
      check = p.checked;
    } };
}

/// A row of `lot`.
#[derive(Drop)]
pub struct StoredLot {
    pub name: Vec<u8>,
    pub product: Vec<u8>,
    pub low_serial: u64,
    pub amount: u32,
    pub discarded: u64,
}

impl Model for StoredLot {
    ghost use Rattle.table_rows.specs.Tables.{StoredLot as LotValue};

    ghost Value = { LotValue };

    ghost view = { λ l. record {
      lot = record {
        name = l.name.items;
        product = l.product.items;
        first = l.low_serial;
        count = l.amount;
      };
      discarded = l.discarded;
    } };
}

/// A row of `batch`.
#[derive(Drop)]
pub struct StoredBatch {
    pub id: u64,
    pub name: Vec<u8>,
    pub product: Vec<u8>,
    pub raw: Vec<u8>,
    pub closed: bool,
    pub waiting: u64,
    pub running: u64,
    pub failed: u64,
    pub withdrawn: u64,
    pub good: u64,
    pub sessions: u64,
    pub spoiled: u64,
}

impl Model for StoredBatch {
    ghost use Rattle.table_rows.specs.Tables.{StoredBatch as BatchValue};

    ghost Value = { BatchValue };

    ghost view = { λ b. record {
      id = b.id;
      name = b.name.items;
      product = b.product.items;
      raw = b.raw.items;
      closed = b.closed;
      waiting = b.waiting;
      running = b.running;
      failed = b.failed;
      withdrawn = b.withdrawn;
      good = b.good;
      sessions = b.sessions;
      spoiled = b.spoiled;
    } };
}

/// A row of `record`.
#[derive(Drop)]
pub struct StoredRecord {
    pub batch: u64,
    pub place: u64,
    pub name: Vec<u8>,
    pub state: RecordState,
    pub spoiled: u64,
    pub remakes: u64,
}

impl Model for StoredRecord {
    ghost use Rattle.table_rows.specs.Tables.{StoredRecord as RecordValue};

    ghost Value = { RecordValue };

    ghost view = { λ r. record {
      batch = r.batch;
      place = r.place;
      name = r.name.items;
      state = r.state;
      spoiled = r.spoiled;
      remakes = r.remakes;
    } };
}

/// A row of `grouping2`.
#[derive(Drop)]
pub struct StoredGrouping {
    pub batch: u64,
    pub line: u64,
    pub place: u64,
    pub aid: Vec<u8>,
    pub rank: u16,
    pub enc: Enc,
    pub tol: bool,
    pub coded: Vec<u8>,
}

impl Model for StoredGrouping {
    ghost use Rattle.table_rows.specs.Tables.{StoredGrouping as GroupingValue};

    ghost Value = { GroupingValue };

    ghost view = { λ g. record {
      batch = g.batch;
      line = g.line;
      place = g.place;
      aid = g.aid.items;
      rank = g.rank;
      enc = g.enc;
      tol = g.tol;
      coded = g.coded.items;
    } };
}

/// A row of `session`.
#[derive(Drop)]
pub struct StoredSession {
    pub id: u64,
    pub machine: Vec<u8>,
    pub batch: u64,
    pub place: u64,
    pub serial: u64,
    pub state: SessionState,
    pub ended: bool,
    pub words: u64,
    pub app: u64,
    pub segment: u64,
    pub offset: u64,
    pub block: u64,
}

impl Model for StoredSession {
    ghost use Rattle.table_rows.specs.Tables.{StoredSession as SessionValue};

    ghost Value = { SessionValue };

    ghost view = { λ s. record {
      id = s.id;
      machine = s.machine.items;
      batch = s.batch;
      place = s.place;
      serial = s.serial;
      state = s.state;
      ended = s.ended;
      words = s.words;
      cursor = record { app = s.app; segment = s.segment; offset = s.offset; block = s.block };
    } };
}

/// A row of `word`.
#[derive(Drop)]
pub struct StoredWord {
    pub session: u64,
    pub place: u64,
    pub sw: u16,
}

impl Model for StoredWord {
    ghost use Rattle.table_rows.specs.Tables.{StoredWord as WordValue};

    ghost Value = { WordValue };

    ghost view = { λ w. record { session = w.session; place = w.place; sw = w.sw } };
}

/// A row of `blank`: a charged blank, opened or discarded.
#[derive(Drop)]
pub struct StoredBlank {
    pub serial: u64,
    pub lot: Vec<u8>,
    pub discarded: bool,
}

impl Model for StoredBlank {
    ghost use Rattle.table_rows.specs.Tables.{StoredBlank as BlankValue};

    ghost Value = { BlankValue };

    ghost view = { λ b. record { serial = b.serial; lot = b.lot.items; discarded = b.discarded } };
}

/// A row of `remake`.
#[derive(Drop)]
pub struct StoredRemake {
    pub batch: u64,
    pub place: u64,
    pub turn: u64,
}

impl Model for StoredRemake {
    ghost use Rattle.table_rows.specs.Tables.{StoredRemake as RemakeValue};

    ghost Value = { RemakeValue };

    ghost view = { λ r. record { batch = r.batch; place = r.place; turn = r.turn } };
}

/// A row of `reply`.
#[derive(Drop)]
pub struct StoredReply {
    pub client: Vec<u8>,
    pub number: u64,
    pub ask: Vec<u8>,
    pub status: u64,
    pub body: Vec<u8>,
}

impl Model for StoredReply {
    ghost use Rattle.job_facts.specs.Contents.{Entry};

    ghost Value = { Entry };

    ghost view = { λ r. record {
      client = r.client.items;
      number = r.number;
      ask = r.ask.items;
      status = r.status;
      body = r.body.items;
    } };
}

/// A row of `mark`.
#[derive(Drop)]
pub struct StoredMark {
    pub client: Vec<u8>,
    pub upto: u64,
}

impl Model for StoredMark {
    ghost use Rattle.job_facts.specs.Contents.{Mark};

    ghost Value = { Mark };

    ghost view = { λ m. record { client = m.client.items; upto = m.upto } };
}

/// The rows of each table, in any order.
#[derive(Drop)]
pub struct Tables {
    pub products: Vec<StoredProduct>,
    pub lots: Vec<StoredLot>,
    pub batches: Vec<StoredBatch>,
    pub records: Vec<StoredRecord>,
    pub groupings: Vec<StoredGrouping>,
    pub sessions: Vec<StoredSession>,
    pub words: Vec<StoredWord>,
    pub blanks: Vec<StoredBlank>,
    pub remakes: Vec<StoredRemake>,
    pub replies: Vec<StoredReply>,
    pub marks: Vec<StoredMark>,
}

impl Model for Tables {
    ghost use Rattle.table_rows.specs.Tables.{Tables as TablesValue};

    ghost Value = { TablesValue };

    ghost view = { λ t. record {
      products = t.products.items;
      lots = t.lots.items;
      batches = t.batches.items;
      records = t.records.items;
      groupings = t.groupings.items;
      sessions = t.sessions.items;
      words = t.words.items;
      blanks = t.blanks.items;
      remakes = t.remakes.items;
      replies = t.replies.items;
      marks = t.marks.items;
    } };
}
