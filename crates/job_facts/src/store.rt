//! The interface of a store that keeps facts, kept replies and release marks.
ghost use Rattle.std.specs.Prelude.{◌≡◌};

use crate::change::Change;
use crate::entry::Entry;
use crate::facts::{Lot, RecordState};
use crate::failed::Failed;
use crate::rows::{
    BatchRow, BatchSize, BatchTotals, BlankTotals, KeptReply, RecordLine, SegmentRow, SessionRow,
};
use std::alloc::{AllocError, AllocFailed};
use store_data::{Name, Product};

/// The reason why a call of a store failed.
#[derive(Clone, Copy, Debug, PartialEq, Eq)]
pub enum StoreFault {
    /// An allocation failed.
    Memory,
    /// The device failed.
    Device,
    /// The device is full.
    Full,
}

impl From<AllocError> for StoreFault {
    ghost use Rattle.job_facts.specs.declared.store.StoreFault.TheVariants.{Memory};

    ghost from_gives = { λ _ fault. fault ≡ Memory };

    fn from(_error: AllocError) -> StoreFault {
        StoreFault::Memory
    }
}

impl<T: Drop> From<AllocFailed<T>> for StoreFault {
    ghost use Rattle.job_facts.specs.declared.store.StoreFault.TheVariants.{Memory};

    ghost from_gives = { λ _ fault. fault ≡ Memory };

    fn from(_error: AllocFailed<T>) -> StoreFault {
        StoreFault::Memory
    }
}

/// A store of facts, kept replies and release marks. Reads don't change them, and may allocate with
/// the store's own allocator. All calls can return any `StoreFault`.
pub trait JobStore {
    ghost use Rattle.std.specs.Prelude.{◌≡◌, ◌≤◌, ◌<◌, ◌^◌, IfOk, IfSome, length, option_map};
    ghost use Rattle.store_data.specs.Cursor.{IsCursor};
    ghost use Rattle.store_data.specs.Sequence.{IsProduct};
    ghost use Rattle.job_facts.specs.declared.rows.SegmentRow.{SegmentRow as SegmentRowValue};
    ghost use Rattle.job_facts.specs.declared.rows.SessionRow.{SessionRow as SessionRowValue};
    ghost use Rattle.job_facts.specs.Accounts.{batch_totals, blank_totals, record_lines};
    ghost use Rattle.job_facts.specs.Contents.{AreSound, Contents, IsOwed, IsOwedRelease};
    ghost use Rattle.job_facts.specs.Contents.{committed, entry_of, mark_of, released};
    ghost use Rattle.job_facts.specs.Contents.{reply_of_entry};
    ghost use Rattle.job_facts.specs.Kept.{kept_reply};
    ghost use Rattle.job_facts.specs.Rows.{batch_has, batch_row_of, batch_size_of, segment_row_of};
    ghost use Rattle.job_facts.specs.Rows.{session_row_of};
    ghost use Rattle.job_facts.specs.States.{any_overlaps, first_waiting, is_batch_finished};
    ghost use Rattle.job_facts.specs.States.{is_charged, lot_named, lot_of, product_named};
    ghost use Rattle.job_facts.specs.States.{record_state_of, running_session};
    ghost use Rattle.job_facts.specs.Store.{AddsNoneIfUndone, Commits, CountsFaults};
    ghost use Rattle.job_facts.specs.Store.{LeavesContents, Reads, State, with_fault};

    /// The contents of the store, its counters, and the contents that an open after a crash may
    /// find.
    ghost state: { Self → State };

    /// Returns the product with the name `code`.
    fn product(&mut self, code: &Name) -> Result<Option<Product>, StoreFault>
        ensures value { Reads (state self.old) (state self.new) result
            (λ c answer. answer ≡ product_named c.facts.products code.now) }
        ensures ranged { IfOk result (λ answer. IfSome answer IsProduct) }
        ensures leaves { LeavesContents (state self.old) (state self.new) result };

    /// Returns the lot with the name `name`.
    fn lot(&mut self, name: &Name) -> Result<Option<Lot>, StoreFault>
        ensures value { Reads (state self.old) (state self.new) result
            (λ c answer. answer ≡ lot_named c.facts.lots name.now) }
        ensures leaves { LeavesContents (state self.old) (state self.new) result };

    /// Returns the lot that contains `blank`.
    fn lot_of(&mut self, blank: u64) -> Result<Option<Lot>, StoreFault>
        ensures value { Reads (state self.old) (state self.new) result
            (λ c answer. answer ≡ lot_of c.facts.lots blank) }
        ensures leaves { LeavesContents (state self.old) (state self.new) result };

    /// Returns `true` if a lot contains one of the `count` serials that start with `first`.
    fn overlaps(&mut self, first: u64, count: u32) -> Result<bool, StoreFault>
        ensures value { Reads (state self.old) (state self.new) result
            (λ c answer. answer ≡ any_overlaps c.facts.lots first count) }
        ensures leaves { LeavesContents (state self.old) (state self.new) result };

    /// Returns the batch with the name `name`.
    fn batch(&mut self, name: &Name) -> Result<Option<BatchRow>, StoreFault>
        ensures value { Reads (state self.old) (state self.new) result
            (λ c answer. answer ≡ batch_row_of c.facts name.now) }
        ensures leaves { LeavesContents (state self.old) (state self.new) result };

    /// Returns the numbers of rows and records of the batch `name`.
    fn batch_size(&mut self, name: &Name) -> Result<Option<BatchSize>, StoreFault>
        ensures value { Reads (state self.old) (state self.new) result
            (λ c answer. answer ≡ batch_size_of c.facts name.now) }
        ensures leaves { LeavesContents (state self.old) (state self.new) result };

    /// Returns `true` if the batch `name` was imported from exactly the bytes `raw`.
    fn batch_has(&mut self, name: &Name, raw: &[u8]) -> Result<bool, StoreFault>
        ensures value { Reads (state self.old) (state self.new) result
            (λ c answer. answer ≡ batch_has c.facts name.now raw.now) }
        ensures leaves { LeavesContents (state self.old) (state self.new) result };

    /// Returns the state of the record `rec`, or `None` if the batch doesn't contain it.
    fn record_state(&mut self, batch: &Name, rec: &Name) -> Result<Option<RecordState>, StoreFault>
        ensures value { Reads (state self.old) (state self.new) result
            (λ c answer. answer ≡ record_state_of c.facts batch.now rec.now) }
        ensures leaves { LeavesContents (state self.old) (state self.new) result };

    /// Returns the first waiting record of `batch`, in file order.
    fn first_waiting(&mut self, batch: &Name) -> Result<Option<Name>, StoreFault>
        ensures value { Reads (state self.old) (state self.new) result
            (λ c answer. answer ≡ first_waiting c.facts batch.now) }
        ensures leaves { LeavesContents (state self.old) (state self.new) result };

    /// Returns `true` if every record of `batch` is good or withdrawn.
    fn is_finished(&mut self, batch: &Name) -> Result<bool, StoreFault>
        ensures value { Reads (state self.old) (state self.new) result
            (λ c answer. answer ≡ is_batch_finished c.facts batch.now) }
        ensures leaves { LeavesContents (state self.old) (state self.new) result };

    /// Returns the session with the number `session`.
    fn session(&mut self, session: u64) -> Result<Option<SessionRow>, StoreFault>
        ensures value { Reads (state self.old) (state self.new) result
            (λ c answer. answer ≡ session_row_of c.facts session) }
        ensures ranged { IfOk result
            (λ answer. IfSome answer (λ (row : SessionRowValue). IsCursor row.cursor)) }
        ensures leaves { LeavesContents (state self.old) (state self.new) result };

    /// Returns the number of the running session of `machine`.
    fn running_session(&mut self, machine: &Name) -> Result<Option<u64>, StoreFault>
        ensures value { Reads (state self.old) (state self.new) result
            (λ c answer. answer ≡ running_session c.facts machine.now) }
        ensures leaves { LeavesContents (state self.old) (state self.new) result };

    /// Returns `true` if `blank` is charged by an `open` or a `discard`.
    fn is_charged(&mut self, blank: u64) -> Result<bool, StoreFault>
        ensures value { Reads (state self.old) (state self.new) result
            (λ c answer. answer ≡ is_charged c.facts blank) }
        ensures leaves { LeavesContents (state self.old) (state self.new) result };

    /// Returns segment `segment` of application `app` of the record `rec`, or `None` if the record
    /// doesn't have it. Both numbers start at 0.
    fn segment(
        &mut self,
        batch: &Name,
        rec: &Name,
        app: u16,
        segment: u16,
    ) -> Result<Option<SegmentRow>, StoreFault>
        ensures value { Reads (state self.old) (state self.new) result
            (λ c answer. answer ≡ segment_row_of c.facts batch.now rec.now app segment) }
        ensures ranged { IfOk result
            (λ answer. IfSome answer (λ (row : SegmentRowValue). row.low ≤ 31)) }
        ensures leaves { LeavesContents (state self.old) (state self.new) result };

    /// Returns the number of products.
    fn product_count(&mut self) -> Result<u64, StoreFault>
        ensures value { Reads (state self.old) (state self.new) result
            (λ c answer. answer ≡ length c.facts.products) }
        ensures leaves { LeavesContents (state self.old) (state self.new) result };

    /// Returns the number of lots.
    fn lot_count(&mut self) -> Result<u64, StoreFault>
        ensures value { Reads (state self.old) (state self.new) result
            (λ c answer. answer ≡ length c.facts.lots) }
        ensures leaves { LeavesContents (state self.old) (state self.new) result };

    /// Returns the number of batches.
    fn batch_count(&mut self) -> Result<u64, StoreFault>
        ensures value { Reads (state self.old) (state self.new) result
            (λ c answer. answer ≡ length c.facts.batches) }
        ensures leaves { LeavesContents (state self.old) (state self.new) result };

    /// Returns the number of sessions.
    fn session_count(&mut self) -> Result<u64, StoreFault>
        ensures value { Reads (state self.old) (state self.new) result
            (λ c answer. answer ≡ length c.facts.sessions) }
        ensures ranged { IfOk result (λ answer. answer < 2 ^ 63) }
        ensures leaves { LeavesContents (state self.old) (state self.new) result };

    /// Returns the counters of `batch`, which are all 0 if the batch doesn't exist.
    fn batch_totals(&mut self, batch: &Name) -> Result<BatchTotals, StoreFault>
        ensures value { Reads (state self.old) (state self.new) result
            (λ c answer. answer ≡ batch_totals c.facts batch.now) }
        ensures leaves { LeavesContents (state self.old) (state self.new) result };

    /// Returns a line for each record of `batch`, in file order.
    fn record_lines(&mut self, batch: &Name) -> Result<Vec<RecordLine>, StoreFault>
        ensures value { Reads (state self.old) (state self.new) result
            (λ c lines. lines.items ≡ record_lines c.facts batch.now) }
        ensures leaves { LeavesContents (state self.old) (state self.new) result };

    /// Returns the counters of the blanks of `product`.
    fn blank_totals(&mut self, product: &Name) -> Result<BlankTotals, StoreFault>
        ensures value { Reads (state self.old) (state self.new) result
            (λ c answer. answer ≡ blank_totals c.facts product.now) }
        ensures leaves { LeavesContents (state self.old) (state self.new) result };

    /// Returns the reply that is kept under the number `number` of `client`.
    fn kept(&mut self, client: &Name, number: u64) -> Result<Option<KeptReply>, StoreFault>
        ensures value { Reads (state self.old) (state self.new) result
            (λ c answer. answer ≡ option_map reply_of_entry (entry_of c.kept client.now number)) }
        ensures leaves { LeavesContents (state self.old) (state self.new) result };

    /// Returns the release mark of `client`, or 0 if it has released nothing.
    fn mark(&mut self, client: &Name) -> Result<u64, StoreFault>
        ensures value { Reads (state self.old) (state self.new) result
            (λ c answer. answer ≡ mark_of c.marks client.now) }
        ensures leaves { LeavesContents (state self.old) (state self.new) result };

    /// Stores a change and the reply to its request in one transaction.
    ///
    /// If the call fails, the contents of the store are unchanged. An open after a crash then finds
    /// what it could find before the call, or, unless the failure is `undone`, the contents with the
    /// change and the reply.
    fn commit(&mut self, entry: &Entry<'_>, change: &Change<'_>) -> Result<(), Failed<StoreFault>>
        requires most { entry.now.number < 10 ^ 18 }
        ensures all_or_nothing { let kept = kept_reply entry.now in
            Commits (state self.old) (state self.new) (with_fault result) kept
            (IsOwed change.now kept) (λ c. committed c change.now kept) }
        ensures undone { AddsNoneIfUndone (state self.old) (state self.new) result }
        ensures faults { CountsFaults (state self.old) (state self.new) (with_fault result) };

    /// Stores the release mark `mark` of the client in `entry` and the reply to the release in one
    /// transaction, and deletes the client's kept replies up to the mark.
    ///
    /// If the call fails, the contents of the store are unchanged. An open after a crash then finds
    /// what it could find before the call, or, unless the failure is `undone`, the contents after
    /// the release.
    fn release(&mut self, entry: &Entry<'_>, mark: u64) -> Result<(), Failed<StoreFault>>
        requires most { entry.now.number < 10 ^ 18 }
        ensures all_or_nothing { let kept = kept_reply entry.now in
            Commits (state self.old) (state self.new) (with_fault result) kept
            (IsOwedRelease mark kept) (λ c. released c mark kept) }
        ensures undone { AddsNoneIfUndone (state self.old) (state self.new) result }
        ensures faults { CountsFaults (state self.old) (state self.new) (with_fault result) };

    /// The contents of the store are sound.
    ghost sound: { (store : Self) (c : Contents) → (state store).holds c → AreSound c };
}
