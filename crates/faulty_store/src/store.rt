//! A store of lists with a faulty device.
use crate::device::{Device, Fault, Plan};
use job_facts::{
    BatchRow, BatchSize, BatchTotals, BlankTotals, Change, Entry, Failed, FaultCounts, JobStore,
    KeptReply, Lot, RecordLine, RecordState, SegmentRow, ServerStore, SessionRow, StoreFault,
};
use list_store::ListStore;
use std::alloc::Global;
use store_data::{Name, Product};

/// A store of lists with a faulty device. Each call takes a step of the device before it uses the
/// lists. Only tests show this.
#[derive(Drop)]
pub struct FaultyStore {
    alloc: Global,
    lists: ListStore,
    device: Device,
}

impl FaultyStore {
    ghost use Rattle.std.specs.Prelude.{◌≡◌, false, OnOk, Some};
    ghost use Rattle.job_facts.specs.Contents.{AreSound, Contents, no_contents};
    ghost use Rattle.job_facts.specs.Reopening.{OpensWith};
    ghost use Rattle.job_facts.specs.Store.{IsHonest, LeavesContents};
    ghost use Rattle.list_store.specs.Lists.{contents};
    ghost use Rattle.faulty_store.specs.Faulty.{IsAnswered, state, struck};

    /// Creates an empty store whose device has the planned fault `plan`. Allocates nothing.
    pub fn new(alloc: Global, plan: Option<Plan>) -> FaultyStore
        ensures holds { (state result).holds no_contents }
        ensures device { result.device ≡ record {
          plan = plan;
          failed = 0;
          full = 0;
          lies = 0;
          is_shut = false;
        } }
    {
        FaultyStore {
            alloc,
            lists: ListStore::new(alloc),
            device: Device {
                plan,
                failed: 0,
                full: 0,
                lies: 0,
                is_shut: false,
            },
        }
    }

    /// Simulates a crash at this moment, and opens the store again. The device keeps its counts,
    /// and its next planned fault is `plan`. Allocates nothing.
    pub fn reopen(self, plan: Option<Plan>) -> FaultyStore
        ensures opened { (c : Contents) → AreSound c → (state self).may_leave (Some c)
            → OpensWith (state result) c }
        ensures device { result.device ≡ record self.device { plan = plan; is_shut = false } }
    {
        let device = Device {
            plan,
            is_shut: false,
            ..self.device
        };
        FaultyStore { device, ..self }
    }

    /// Returns a copy of the device, with its counts. Allocates nothing.
    pub fn device(&self) -> Device
        ensures { result ≡ self.now.device }
    {
        self.device
    }

    // Takes a step of the device, and returns its fault, if it reports one. If the device loses all
    // data, the lists are empty afterwards and the call continues.
    fn turn(&mut self) -> Result<(), StoreFault>
        ensures leaves { LeavesContents (state self.old) (state self.new) result }
        ensures open { OnOk result (self.old.device.is_shut ≡ false) }
        ensures answered { OnOk result (IsAnswered (struck self.old.device.plan)) }
        ensures same { IsHonest (state self.new)
            → contents self.new.lists ≡ contents self.old.lists }
    {
        match self.device.strike() {
            None => Ok(()),
            Some(Fault::Failed | Fault::FailedAfterWrite) => Err(self.device.fail()),
            Some(Fault::Full) => Err(self.device.refuse()),
            Some(Fault::Lies) => {
                self.device.lies = self.device.lies.saturating_add(1);
                self.lists = ListStore::new(self.alloc);
                Ok(())
            }
        }
    }
}

impl JobStore for FaultyStore {
    ghost use Rattle.faulty_store.specs.Faulty.{state};

    ghost state = { state };

    ghost sound = { λ store c held. held.0 };

    fn product(&mut self, code: &Name) -> Result<Option<Product>, StoreFault> {
        self.turn()?;
        self.lists.product(code)
    }

    fn lot(&mut self, name: &Name) -> Result<Option<Lot>, StoreFault> {
        self.turn()?;
        self.lists.lot(name)
    }

    fn lot_of(&mut self, blank: u64) -> Result<Option<Lot>, StoreFault> {
        self.turn()?;
        self.lists.lot_of(blank)
    }

    fn overlaps(&mut self, first: u64, count: u32) -> Result<bool, StoreFault> {
        self.turn()?;
        self.lists.overlaps(first, count)
    }

    fn batch(&mut self, name: &Name) -> Result<Option<BatchRow>, StoreFault> {
        self.turn()?;
        self.lists.batch(name)
    }

    fn batch_size(&mut self, name: &Name) -> Result<Option<BatchSize>, StoreFault> {
        self.turn()?;
        self.lists.batch_size(name)
    }

    fn batch_has(&mut self, name: &Name, raw: &[u8]) -> Result<bool, StoreFault> {
        self.turn()?;
        self.lists.batch_has(name, raw)
    }

    fn record_state(
        &mut self,
        batch: &Name,
        rec: &Name,
    ) -> Result<Option<RecordState>, StoreFault> {
        self.turn()?;
        self.lists.record_state(batch, rec)
    }

    fn first_waiting(&mut self, batch: &Name) -> Result<Option<Name>, StoreFault> {
        self.turn()?;
        self.lists.first_waiting(batch)
    }

    fn is_finished(&mut self, batch: &Name) -> Result<bool, StoreFault> {
        self.turn()?;
        self.lists.is_finished(batch)
    }

    fn session(&mut self, session: u64) -> Result<Option<SessionRow>, StoreFault> {
        self.turn()?;
        self.lists.session(session)
    }

    fn running_session(&mut self, machine: &Name) -> Result<Option<u64>, StoreFault> {
        self.turn()?;
        self.lists.running_session(machine)
    }

    fn is_charged(&mut self, blank: u64) -> Result<bool, StoreFault> {
        self.turn()?;
        self.lists.is_charged(blank)
    }

    fn segment(
        &mut self,
        batch: &Name,
        rec: &Name,
        app: u16,
        segment: u16,
    ) -> Result<Option<SegmentRow>, StoreFault> {
        self.turn()?;
        self.lists.segment(batch, rec, app, segment)
    }

    fn product_count(&mut self) -> Result<u64, StoreFault> {
        self.turn()?;
        self.lists.product_count()
    }

    fn lot_count(&mut self) -> Result<u64, StoreFault> {
        self.turn()?;
        self.lists.lot_count()
    }

    fn batch_count(&mut self) -> Result<u64, StoreFault> {
        self.turn()?;
        self.lists.batch_count()
    }

    fn session_count(&mut self) -> Result<u64, StoreFault> {
        self.turn()?;
        self.lists.session_count()
    }

    fn batch_totals(&mut self, batch: &Name) -> Result<BatchTotals, StoreFault> {
        self.turn()?;
        self.lists.batch_totals(batch)
    }

    fn record_lines(&mut self, batch: &Name) -> Result<Vec<RecordLine>, StoreFault> {
        self.turn()?;
        self.lists.record_lines(batch)
    }

    fn blank_totals(&mut self, product: &Name) -> Result<BlankTotals, StoreFault> {
        self.turn()?;
        self.lists.blank_totals(product)
    }

    fn kept(&mut self, client: &Name, number: u64) -> Result<Option<KeptReply>, StoreFault> {
        self.turn()?;
        self.lists.kept(client, number)
    }

    fn mark(&mut self, client: &Name) -> Result<u64, StoreFault> {
        self.turn()?;
        self.lists.mark(client)
    }

    fn commit(&mut self, entry: &Entry<'_>, change: &Change<'_>) -> Result<(), Failed<StoreFault>> {
        self.turn()?;
        self.lists.commit(entry, change)?;
        self.device.end_write()
    }

    fn release(&mut self, entry: &Entry<'_>, mark: u64) -> Result<(), Failed<StoreFault>> {
        self.turn()?;
        self.lists.release(entry, mark)?;
        self.device.end_write()
    }
}

// Closing the store takes a step of the device, like any other call.
impl ServerStore for FaultyStore {
    ghost use Rattle.std.specs.Prelude.{◌≡◌, false, ⊤};
    ghost use Rattle.faulty_store.specs.Faulty.{IsAnswered, struck};

    ghost closed = { λ store. (store.device.is_shut ≡ false)
        × IsAnswered (struck store.device.plan) };

    // The plan of a test may let any close fail.
    ghost unclosed = { λ _ _. ⊤ };

    fn fault_counts(&self) -> FaultCounts {
        FaultCounts {
            failed: self.device.failed,
            full: self.device.full,
        }
    }

    fn reply_count(&mut self) -> Result<u64, StoreFault> {
        self.turn()?;
        self.lists.reply_count()
    }

    fn finish(mut self) -> Result<(), StoreFault> {
        self.turn()?;
        self.lists.finish()
    }
}
