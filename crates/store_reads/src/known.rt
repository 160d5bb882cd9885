//! A cache of rows that were read or written recently.
//!
//! The cache saves the store from reading rows that can't have changed. It has three parts:
//!
//! - records: the columns that never change after an import, and their segments without the bytes;
//! - the state of one record, valid until the next change; the record itself doesn't have to be
//!   cached;
//! - the counters of batches, each valid until the next change to its batch.
ghost use Rattle.std.specs.Prelude.{◌≡◌, ◌<◌, ◌^◌, IfSome};
ghost use Rattle.std.proofs.Props.{props};
ghost use Rattle.store_data.specs.Sequence.{IsProduct};
ghost use Rattle.row_reads.specs.CardDecoding.{IsRecordAt};
ghost use Rattle.store_reads.specs.Counted.{leaves_counters};
ghost use Rattle.store_reads.specs.Fixed.{leaves_fixed};

use crate::plans::SegmentHead;
use job_facts::BatchTotals;
use row_reads::RecordAt;
use std::alloc::Global;
use store_data::{Name, Product};
use table_rows::Writing;

/// The columns of a record that never change after the import.
#[derive(Drop)]
pub struct KnownRecord {
    /// The name of the batch.
    pub(crate) batch: Name,
    /// The name of the record.
    pub(crate) rec: Name,
    /// The id of the batch.
    pub(crate) id: u64,
    /// The product of the batch.
    pub(crate) product: Product,
    /// The position of the record in its batch, from 0.
    pub(crate) place: u64,
    /// The segments of each application, without their bytes.
    pub(crate) heads: Vec<Vec<SegmentHead>>,
    ghost id_in_range: { id < 2 ^ 63 },
    ghost place_in_range: { place < 2 ^ 63 },
    ghost product_in_range: { IsProduct product },
}

/// The current state of a record in the batch with the id `batch`.
#[derive(Clone, Copy)]
pub struct StandingRecord {
    pub(crate) batch: u64,
    pub(crate) card: RecordAt,
}

/// The counters of the batch with the id `batch`.
#[derive(Clone, Copy)]
pub struct BatchCounters {
    pub(crate) batch: u64,
    pub(crate) totals: BatchTotals,
}

/// The cache. Records and counters are in order of insertion, and the oldest entry is evicted
/// first.
#[derive(Drop)]
pub struct Known {
    records: Vec<KnownRecord>,
    standing: Option<StandingRecord>,
    counted: Vec<BatchCounters>,
    ghost standing_in_range: { IfSome standing (λ s. IsRecordAt s.card) } by { Prim.hlevel props },
}

/// The maximum number of cached records, and of batches with cached counters. Each running machine
/// works on one record.
const MOST: usize = 64;

impl Known {
    ghost use Rattle.std.specs.Prelude.{◌⊎◌, Contains};
    ghost use Rattle.job_facts.specs.Contents.{Entry};
    ghost use Rattle.table_rows.specs.After.{rows_written};
    ghost use Rattle.table_rows.specs.Tables.{Tables};
    ghost use Rattle.store_reads.specs.Known.{AreCountersOf, IsAllKnownIn, IsStandingOf};
    ghost use Rattle.store_reads.specs.Known.{KnowsNothing, known_counters, known_records};
    ghost use Rattle.store_reads.specs.Known.{standing_record};
    ghost use Rattle.store_reads.specs.declared.known.BatchCounters.{BatchCounters as Counters};
    ghost use Rattle.store_reads.specs.declared.known.KnownRecord.{KnownRecord as KnownRecordValue};

    /// Creates an empty cache.
    pub fn new(alloc: Global) -> Known
        ensures { KnowsNothing result }
    {
        Known {
            records: Vec::new(alloc),
            standing: None,
            counted: Vec::new(alloc),
        }
    }

    /// Returns the record at position `place` of the batch with the id `id`.
    pub(crate) fn at(&self, id: u64, place: u64) -> Option<&KnownRecord>
        ensures known { IfSome result (λ k. Contains (known_records self.now) k.now) }
        ensures id { IfSome result (λ k. k.now.id ≡ id) }
        ensures place { IfSome result (λ k. k.now.place ≡ place) }
    {
        for record in &self.records {
            if record.id == id && record.place == place {
                return Some(record);
            }
        }
        None
    }

    /// Returns the record `rec` of the batch `batch`.
    pub(crate) fn named(&self, batch: &Name, rec: &Name) -> Option<&KnownRecord>
        ensures known { IfSome result (λ k. Contains (known_records self.now) k.now) }
        ensures batch { IfSome result (λ k. k.now.batch ≡ batch.now) }
        ensures rec { IfSome result (λ k. k.now.rec ≡ rec.now) }
    {
        for record in &self.records {
            if record.batch == *batch && record.rec == *rec {
                return Some(record);
            }
        }
        None
    }

    /// Returns any cached record of the batch `batch`.
    pub(crate) fn of_batch(&self, batch: &Name) -> Option<&KnownRecord>
        ensures known { IfSome result (λ k. Contains (known_records self.now) k.now) }
        ensures batch { IfSome result (λ k. k.now.batch ≡ batch.now) }
    {
        for record in &self.records {
            if record.batch == *batch {
                return Some(record);
            }
        }
        None
    }

    /// Returns the state of the record `rec` of the batch with the id `id`, if the cache has it.
    pub(crate) fn stands(&self, id: u64, rec: &Name) -> Option<&RecordAt>
        ensures known { IfSome result (λ card. IsStandingOf self.now id rec.now card.now) }
        ensures ranged { IfSome result (λ card. IsRecordAt card.now) }
    {
        match &self.standing {
            Some(it) if it.batch == id && it.card.name == *rec => Some(&it.card),
            _ => None,
        }
    }

    // Returns the counters of the batch with the id `id`.
    fn counters_at(&self, id: u64) -> Option<BatchCounters>
        ensures known { IfSome result (λ counters. Contains (known_counters self.now) counters) }
        ensures id { IfSome result (λ counters. counters.batch ≡ id) }
    {
        for counters in &self.counted {
            if counters.batch == id {
                return Some(*counters);
            }
        }
        None
    }

    /// Returns the counters of the batch `batch`. A cached record of the batch supplies its id, so
    /// the result is `None` if no record of the batch is cached.
    pub(crate) fn counters(&self, batch: &Name) -> Option<BatchCounters>
        ensures known { IfSome result (AreCountersOf self.now batch.now) }
        ensures ranged { IfSome result (λ counters. counters.batch < 2 ^ 63) }
    {
        let record = self.of_batch(batch)?;
        self.counters_at(record.id)
    }

    /// Adds a record, unless one with the same name and batch is cached. If the cache is full, the
    /// oldest record is evicted. If an allocation fails, the record is not cached and will be read
    /// again.
    pub(crate) fn keep(&mut self, read: KnownRecord)
        ensures records { (k : KnownRecordValue) → Contains (known_records self.new) k
            → (k ≡ read) ⊎ Contains (known_records self.old) k }
        ensures standing { standing_record self.new ≡ standing_record self.old }
        ensures counted { known_counters self.new ≡ known_counters self.old }
    {
        if self.named(&read.batch, &read.rec).is_some() {
            return;
        }
        if self.records.len() >= MOST {
            drop(self.records.remove(0));
        }
        let _ = self.records.push(read);
    }

    /// Caches the state of one record and replaces the previous one.
    pub(crate) fn note(&mut self, batch: u64, card: &RecordAt)
        requires { IsRecordAt card.now }
        ensures records { known_records self.new ≡ known_records self.old }
        ensures standing { IsStandingOf self.new batch card.now.name card.now }
        ensures counted { known_counters self.new ≡ known_counters self.old }
    {
        self.standing = Some(StandingRecord { batch, card: *card });
    }

    /// Caches the counters of the batch with the id `batch`. If the cache is full, the oldest entry
    /// is evicted. If an allocation fails, the counters are not cached and will be read again.
    pub fn cache_counters(&mut self, batch: u64, totals: &BatchTotals)
        ensures records { known_records self.new ≡ known_records self.old }
        ensures standing { standing_record self.new ≡ standing_record self.old }
        ensures counted { (s : Counters) → Contains (known_counters self.new) s
            → (s ≡ record { batch = batch; totals = totals.now })
            ⊎ Contains (known_counters self.old) s }
    {
        if self.counted.len() >= MOST {
            self.counted.remove(0);
        }
        let totals = *totals;
        let _ = self.counted.push(BatchCounters { batch, totals });
    }

    /// Removes every entry that `writing` may change: the record state, the counters of its batch,
    /// all counters if it adds a batch, and all records if it adds a product or a batch. The
    /// remaining entries are valid before and after `writing` is executed.
    pub fn forget_for(&mut self, writing: &Writing<'_>)
        ensures before { (t : Tables) → IsAllKnownIn t self.old → IsAllKnownIn t self.new }
        ensures after { (t : Tables) (entry : Entry) → IsAllKnownIn t self.old
            → IsAllKnownIn (rows_written writing.now entry t) self.new }
    {
        self.standing = None;
        self.counted
            .retain(|counters| leaves_counters(writing, counters.batch));
        if !leaves_fixed(writing) {
            self.records.clear();
        }
    }
}

// Returns `true` if `writing` leaves the counters of the batch with the id `batch` unchanged and
// adds no batch.
fn leaves_counters(writing: &Writing<'_>, batch: u64) -> bool
    ensures { result ≡ leaves_counters writing.now batch }
{
    match writing {
        Writing::AddsBatch { .. } => false,
        Writing::Opens { place, .. } => place.batch != batch,
        Writing::AddsLastWord { place, .. } => place.batch != batch,
        Writing::Ends { place, .. } => place.batch != batch,
        Writing::Remakes { place } => place.batch != batch,
        Writing::Withdraws { place, .. } => place.batch != batch,
        _ => true,
    }
}

// Returns `true` if `writing` adds no product and no batch.
fn leaves_fixed(writing: &Writing<'_>) -> bool
    ensures { result ≡ leaves_fixed writing.now }
{
    match writing {
        Writing::AddsProduct { .. } => false,
        Writing::AddsBatch { .. } => false,
        _ => true,
    }
}
