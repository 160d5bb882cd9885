//! The store.
use crate::lists::{FactLists, KeptMark, KeptRow};
use crate::{accounts, blanks, changes, kept, marks, names, records, segments, sessions, states};
use job_facts::{
    BatchRow, BatchSize, BatchTotals, BlankTotals, Change, Entry, Failed, FaultCounts, JobStore,
    KeptReply, Lot, RecordLine, RecordState, SegmentRow, ServerStore, SessionRow, StoreFault,
    any_overlaps, lot_among,
};
use std::alloc::Global;
use store_data::{Name, Product};

/// A store in memory: the facts, the kept replies (oldest first) and the release marks. It has no
/// device, so the only possible fault is `Memory`.
pub struct ListStore {
    alloc: Global,
    facts: FactLists,
    kept: Vec<KeptRow>,
    marks: Vec<KeptMark>,
}

impl ListStore {
    ghost use Rattle.job_facts.specs.Contents.{no_contents};
    ghost use Rattle.list_store.specs.Lists.{state};

    /// Creates an empty store. Allocates nothing.
    pub fn new(alloc: Global) -> ListStore
        ensures { (state result).holds no_contents }
    {
        ListStore {
            alloc,
            facts: FactLists::new(alloc),
            kept: Vec::new(alloc),
            marks: Vec::new(alloc),
        }
    }
}

// With a derived `drop`, each crate that drops a `ListStore` would prove the drops of its lists.
impl Drop for ListStore {
    fn drop(self) {
        let ListStore {
            alloc: _,
            facts: _,
            kept: _,
            marks: _,
        } = self;
    }
}

impl JobStore for ListStore {
    ghost use Rattle.list_store.specs.Lists.{state};

    ghost state = { state };

    ghost sound = { λ store c held. held.1 };

    fn product(&mut self, code: &Name) -> Result<Option<Product>, StoreFault> {
        Ok(names::product_named(&self.facts.products, code))
    }

    fn lot(&mut self, name: &Name) -> Result<Option<Lot>, StoreFault> {
        Ok(names::lot_named(&self.facts.lots, name).copied())
    }

    fn lot_of(&mut self, blank: u64) -> Result<Option<Lot>, StoreFault> {
        Ok(lot_among(&self.facts.lots, blank).copied())
    }

    fn overlaps(&mut self, first: u64, count: u32) -> Result<bool, StoreFault> {
        Ok(any_overlaps(&self.facts.lots, first, count))
    }

    fn batch(&mut self, name: &Name) -> Result<Option<BatchRow>, StoreFault> {
        Ok(records::batch_row(&self.facts, name))
    }

    fn batch_size(&mut self, name: &Name) -> Result<Option<BatchSize>, StoreFault> {
        records::batch_size(self.alloc, &self.facts, name)
    }

    fn batch_has(&mut self, name: &Name, raw: &[u8]) -> Result<bool, StoreFault> {
        Ok(records::batch_has(&self.facts, name, raw))
    }

    fn record_state(
        &mut self,
        batch: &Name,
        rec: &Name,
    ) -> Result<Option<RecordState>, StoreFault> {
        states::record_state_of(self.alloc, &self.facts, batch, rec)
    }

    fn first_waiting(&mut self, batch: &Name) -> Result<Option<Name>, StoreFault> {
        states::first_waiting(self.alloc, &self.facts, batch)
    }

    fn is_finished(&mut self, batch: &Name) -> Result<bool, StoreFault> {
        states::is_batch_finished(self.alloc, &self.facts, batch)
    }

    fn session(&mut self, session: u64) -> Result<Option<SessionRow>, StoreFault> {
        sessions::session_row_of(self.alloc, &self.facts, session)
    }

    fn running_session(&mut self, machine: &Name) -> Result<Option<u64>, StoreFault> {
        sessions::running_session(self.alloc, &self.facts, machine)
    }

    fn is_charged(&mut self, blank: u64) -> Result<bool, StoreFault> {
        Ok(blanks::is_charged(&self.facts, blank))
    }

    fn segment(
        &mut self,
        batch: &Name,
        rec: &Name,
        app: u16,
        segment: u16,
    ) -> Result<Option<SegmentRow>, StoreFault> {
        segments::segment_row_of(self.alloc, &self.facts, batch, rec, app, segment)
    }

    fn product_count(&mut self) -> Result<u64, StoreFault> {
        Ok(self.facts.products.len() as u64)
    }

    fn lot_count(&mut self) -> Result<u64, StoreFault> {
        Ok(self.facts.lots.len() as u64)
    }

    fn batch_count(&mut self) -> Result<u64, StoreFault> {
        Ok(self.facts.batches.len() as u64)
    }

    fn session_count(&mut self) -> Result<u64, StoreFault> {
        Ok(self.facts.sessions.as_slice().len() as u64)
    }

    fn batch_totals(&mut self, batch: &Name) -> Result<BatchTotals, StoreFault> {
        accounts::batch_totals(self.alloc, &self.facts, batch)
    }

    fn record_lines(&mut self, batch: &Name) -> Result<Vec<RecordLine>, StoreFault> {
        accounts::record_lines(self.alloc, &self.facts, batch)
    }

    fn blank_totals(&mut self, product: &Name) -> Result<BlankTotals, StoreFault> {
        accounts::blank_totals(self.alloc, &self.facts, product)
    }

    fn kept(&mut self, client: &Name, number: u64) -> Result<Option<KeptReply>, StoreFault> {
        kept::reply_of(self.alloc, &self.kept, client, number)
    }

    fn mark(&mut self, client: &Name) -> Result<u64, StoreFault> {
        Ok(marks::mark_of(&self.marks, client))
    }

    fn commit(&mut self, entry: &Entry<'_>, change: &Change<'_>) -> Result<(), Failed<StoreFault>> {
        let row = kept::row(self.alloc, entry)?;
        self.kept.reserve(1)?;
        changes::change_facts(self.alloc, &mut self.facts, change)?;
        self.kept.push(row).unwrap();
        Ok(())
    }

    fn release(&mut self, entry: &Entry<'_>, mark: u64) -> Result<(), Failed<StoreFault>> {
        let reply = kept::row(self.alloc, entry)?;
        self.kept.reserve(1)?;
        marks::set_mark(&mut self.marks, entry.client, mark)?;
        self.kept.push(reply).unwrap();
        marks::drop_released(&mut self.kept, &self.marks);
        Ok(())
    }
}

// The store has no device that can fail, and nothing to close.
impl ServerStore for ListStore {
    ghost use Rattle.std.specs.Prelude.{⊤};

    ghost closed = { λ _. ⊤ };

    ghost unclosed = { λ _ _. ⊥ };

    fn fault_counts(&self) -> FaultCounts {
        FaultCounts { failed: 0, full: 0 }
    }

    fn reply_count(&mut self) -> Result<u64, StoreFault> {
        Ok(self.kept.len() as u64)
    }

    fn finish(self) -> Result<(), StoreFault> {
        Ok(())
    }
}
