//! The store over a connection to SQLite.
ghost use Rattle.std.specs.Prelude.{◌≡◌, false};
ghost use Rattle.sqlite.specs.Held.{state};
ghost use Rattle.store_reads.specs.Known.{Knows};
ghost use Rattle.schema.specs.Link.{link};

use crate::faults::Counts;
use crate::keeping::{keep, release};
use job_facts::{
    BatchRow, BatchSize, BatchTotals, BlankTotals, Change, Entry, Failed, FaultCounts, JobStore,
    KeptReply, Lot, RecordLine, RecordState, SegmentRow, SessionRow, StoreFault,
};
use sqlite::{Alter, Connection};
use std::alloc::Global;
use store_data::{Name, Product};
use store_reads as reads;
use store_reads::Known;

/// A store over a connection to a database with the tables of the current schema. No transaction is
/// open between its calls. Its cache saves it from reading rows again that can't have changed. If a
/// fault has closed the connection, the contracts treat any sound contents as the contents of the
/// store.
pub struct SqlStore<S: Alter> {
    pub(crate) alloc: Global,
    pub(crate) conn: Connection<S>,
    pub(crate) counts: Counts,
    pub(crate) known: Known,
    ghost idle: { conn.in_transaction ≡ false },
    ghost knows: { Knows (state S.Store conn) known },
}

impl<S: Alter> SqlStore<S> {
    ghost use Rattle.std.specs.Prelude.{length};
    ghost use Rattle.job_facts.specs.Store.{LeavesContents, Reads};
    ghost use Rattle.job_facts.specs.Reopening.{counts_of};
    ghost use Rattle.schema.specs.Stores.{connection, stands_for};

    /// Consumes the store, and returns its connection. Allocates nothing.
    pub fn close(self) -> Connection<S>
        ensures handed { result ≡ connection self }
        ensures idle { result.in_transaction ≡ false }
    {
        let SqlStore {
            alloc: _,
            conn,
            counts: _,
            known: _,
        } = self;
        conn
    }

    // Returns the numbers of faults since the store was opened.
    pub(crate) fn fault_counts_of(&self) -> FaultCounts
        ensures { result ≡ counts_of (stands_for S.Store self.now) }
    {
        FaultCounts {
            failed: self.counts.failed,
            full: self.counts.full,
        }
    }

    // Returns the number of kept replies.
    pub(crate) fn count_replies(&mut self) -> Result<u64, StoreFault>
        ensures value { Reads (stands_for S.Store self.old) (stands_for S.Store self.new) result
            (λ c answer. answer ≡ length c.kept) }
        ensures leaves { LeavesContents (stands_for S.Store self.old) (stands_for S.Store self.new)
            result }
    {
        let answer = reads::reply_count(&mut self.conn);
        self.counts.translated(answer)
    }
}

impl<S: Alter + Drop> Drop for SqlStore<S> {
    fn drop(self) {
        let SqlStore {
            alloc: _,
            conn: _,
            counts: _,
            known: _,
        } = self;
    }
}

impl<S: Alter> JobStore for SqlStore<S> {
    ghost state = { λ s. link (state S.Store s.conn) s.counts.failed s.counts.full };

    ghost sound = { λ store c held. held.0 };

    fn product(&mut self, code: &Name) -> Result<Option<Product>, StoreFault> {
        let answer = reads::product(&mut self.conn, code);
        self.counts.translated(answer)
    }

    fn lot(&mut self, name: &Name) -> Result<Option<Lot>, StoreFault> {
        let answer = reads::lot(&mut self.conn, name);
        self.counts.translated(answer)
    }

    fn lot_of(&mut self, blank: u64) -> Result<Option<Lot>, StoreFault> {
        let answer = reads::lot_of(&mut self.conn, blank);
        self.counts.translated(answer)
    }

    fn overlaps(&mut self, first: u64, count: u32) -> Result<bool, StoreFault> {
        let answer = reads::overlaps(&mut self.conn, first, count);
        self.counts.translated(answer)
    }

    fn batch(&mut self, name: &Name) -> Result<Option<BatchRow>, StoreFault> {
        let answer = reads::batch(&mut self.conn, name);
        self.counts.translated(answer)
    }

    fn batch_size(&mut self, name: &Name) -> Result<Option<BatchSize>, StoreFault> {
        let answer = reads::batch_size(&mut self.conn, name);
        self.counts.translated(answer)
    }

    fn batch_has(&mut self, name: &Name, raw: &[u8]) -> Result<bool, StoreFault> {
        let answer = reads::batch_has(&mut self.conn, name, raw);
        self.counts.translated(answer)
    }

    fn record_state(
        &mut self,
        batch: &Name,
        rec: &Name,
    ) -> Result<Option<RecordState>, StoreFault> {
        let answer = reads::record_state(&mut self.conn, batch, rec);
        self.counts.translated(answer)
    }

    fn first_waiting(&mut self, batch: &Name) -> Result<Option<Name>, StoreFault> {
        let answer = reads::first_waiting(&mut self.conn, &mut self.known, batch);
        self.counts.translated(answer)
    }

    fn is_finished(&mut self, batch: &Name) -> Result<bool, StoreFault> {
        let answer = reads::is_finished(&mut self.conn, batch);
        self.counts.translated(answer)
    }

    fn session(&mut self, session: u64) -> Result<Option<SessionRow>, StoreFault> {
        let answer = reads::session(&mut self.conn, &self.known, session);
        self.counts.translated(answer)
    }

    fn running_session(&mut self, machine: &Name) -> Result<Option<u64>, StoreFault> {
        let answer = reads::running_session(&mut self.conn, machine);
        self.counts.translated(answer)
    }

    fn is_charged(&mut self, blank: u64) -> Result<bool, StoreFault> {
        let answer = reads::is_charged(&mut self.conn, blank);
        self.counts.translated(answer)
    }

    fn segment(
        &mut self,
        batch: &Name,
        rec: &Name,
        app: u16,
        segment: u16,
    ) -> Result<Option<SegmentRow>, StoreFault> {
        let answer = reads::segment(&mut self.conn, &mut self.known, batch, rec, app, segment);
        self.counts.translated(answer)
    }

    fn product_count(&mut self) -> Result<u64, StoreFault> {
        let answer = reads::product_count(&mut self.conn);
        self.counts.translated(answer)
    }

    fn lot_count(&mut self) -> Result<u64, StoreFault> {
        let answer = reads::lot_count(&mut self.conn);
        self.counts.translated(answer)
    }

    fn batch_count(&mut self) -> Result<u64, StoreFault> {
        let answer = reads::batch_count(&mut self.conn);
        self.counts.translated(answer)
    }

    fn session_count(&mut self) -> Result<u64, StoreFault> {
        let answer = reads::session_count(&mut self.conn);
        self.counts.translated(answer)
    }

    fn batch_totals(&mut self, batch: &Name) -> Result<BatchTotals, StoreFault> {
        let answer = reads::batch_totals(&mut self.conn, batch);
        self.counts.translated(answer)
    }

    fn record_lines(&mut self, batch: &Name) -> Result<Vec<RecordLine>, StoreFault> {
        let answer = reads::record_lines(&mut self.conn, batch);
        self.counts.translated(answer)
    }

    fn blank_totals(&mut self, product: &Name) -> Result<BlankTotals, StoreFault> {
        let answer = reads::blank_totals(&mut self.conn, product);
        self.counts.translated(answer)
    }

    fn kept(&mut self, client: &Name, number: u64) -> Result<Option<KeptReply>, StoreFault> {
        let answer = reads::kept(&mut self.conn, client, number);
        self.counts.translated(answer)
    }

    fn mark(&mut self, client: &Name) -> Result<u64, StoreFault> {
        let answer = reads::mark(&mut self.conn, client);
        self.counts.translated(answer)
    }

    fn commit(&mut self, entry: &Entry<'_>, change: &Change<'_>) -> Result<(), Failed<StoreFault>> {
        image_laws::same_rows_same_contents();
        let answer = keep(&mut self.conn, &mut self.known, self.alloc, entry, change);
        self.counts.translated_commit(answer)
    }

    fn release(&mut self, entry: &Entry<'_>, mark: u64) -> Result<(), Failed<StoreFault>> {
        image_laws::same_rows_same_contents();
        let answer = release(&mut self.conn, &self.known, self.alloc, entry, mark);
        self.counts.translated_commit(answer)
    }
}
