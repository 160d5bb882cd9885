//! Copies rows.
ghost use Rattle.std.specs.Prelude.{◌≡◌, IfOk};

use std::alloc::{AllocError, Global};
use table_rows::{
    StoredBatch, StoredBlank, StoredGrouping, StoredLot, StoredMark, StoredProduct, StoredRecord,
    StoredRemake, StoredReply, StoredSession, StoredWord, Tables,
};

// A row that can be copied.
trait Copied: Sized + Drop {
    fn copied(&self, alloc: Global) -> Result<Self, AllocError>
        ensures { IfOk result (λ copy. copy ≡ self.now) };
}

impl Copied for StoredProduct {
    fn copied(&self, alloc: Global) -> Result<StoredProduct, AllocError> {
        Ok(StoredProduct {
            name: Vec::from_slice(alloc, self.name.as_slice())?,
            max: self.max,
            low: self.low,
            checked: self.checked,
        })
    }
}

impl Copied for StoredLot {
    fn copied(&self, alloc: Global) -> Result<StoredLot, AllocError> {
        Ok(StoredLot {
            name: Vec::from_slice(alloc, self.name.as_slice())?,
            product: Vec::from_slice(alloc, self.product.as_slice())?,
            low_serial: self.low_serial,
            amount: self.amount,
            discarded: self.discarded,
        })
    }
}

impl Copied for StoredBatch {
    fn copied(&self, alloc: Global) -> Result<StoredBatch, AllocError> {
        Ok(StoredBatch {
            id: self.id,
            name: Vec::from_slice(alloc, self.name.as_slice())?,
            product: Vec::from_slice(alloc, self.product.as_slice())?,
            raw: Vec::from_slice(alloc, self.raw.as_slice())?,
            closed: self.closed,
            waiting: self.waiting,
            running: self.running,
            failed: self.failed,
            withdrawn: self.withdrawn,
            good: self.good,
            sessions: self.sessions,
            spoiled: self.spoiled,
        })
    }
}

impl Copied for StoredRecord {
    fn copied(&self, alloc: Global) -> Result<StoredRecord, AllocError> {
        Ok(StoredRecord {
            batch: self.batch,
            place: self.place,
            name: Vec::from_slice(alloc, self.name.as_slice())?,
            state: self.state,
            spoiled: self.spoiled,
            remakes: self.remakes,
        })
    }
}

impl Copied for StoredGrouping {
    fn copied(&self, alloc: Global) -> Result<StoredGrouping, AllocError> {
        Ok(StoredGrouping {
            batch: self.batch,
            line: self.line,
            place: self.place,
            aid: Vec::from_slice(alloc, self.aid.as_slice())?,
            rank: self.rank,
            enc: self.enc,
            tol: self.tol,
            coded: Vec::from_slice(alloc, self.coded.as_slice())?,
        })
    }
}

impl Copied for StoredSession {
    fn copied(&self, alloc: Global) -> Result<StoredSession, AllocError> {
        Ok(StoredSession {
            id: self.id,
            machine: Vec::from_slice(alloc, self.machine.as_slice())?,
            batch: self.batch,
            place: self.place,
            serial: self.serial,
            state: self.state,
            ended: self.ended,
            words: self.words,
            app: self.app,
            segment: self.segment,
            offset: self.offset,
            block: self.block,
        })
    }
}

impl Copied for StoredWord {
    fn copied(&self, _alloc: Global) -> Result<StoredWord, AllocError> {
        Ok(StoredWord {
            session: self.session,
            place: self.place,
            sw: self.sw,
        })
    }
}

impl Copied for StoredBlank {
    fn copied(&self, alloc: Global) -> Result<StoredBlank, AllocError> {
        Ok(StoredBlank {
            serial: self.serial,
            lot: Vec::from_slice(alloc, self.lot.as_slice())?,
            discarded: self.discarded,
        })
    }
}

impl Copied for StoredRemake {
    fn copied(&self, _alloc: Global) -> Result<StoredRemake, AllocError> {
        Ok(StoredRemake {
            batch: self.batch,
            place: self.place,
            turn: self.turn,
        })
    }
}

impl Copied for StoredReply {
    fn copied(&self, alloc: Global) -> Result<StoredReply, AllocError> {
        Ok(StoredReply {
            client: Vec::from_slice(alloc, self.client.as_slice())?,
            number: self.number,
            ask: Vec::from_slice(alloc, self.ask.as_slice())?,
            status: self.status,
            body: Vec::from_slice(alloc, self.body.as_slice())?,
        })
    }
}

impl Copied for StoredMark {
    fn copied(&self, alloc: Global) -> Result<StoredMark, AllocError> {
        Ok(StoredMark {
            client: Vec::from_slice(alloc, self.client.as_slice())?,
            upto: self.upto,
        })
    }
}

fn copies<T: Copied>(alloc: Global, rows: &[T]) -> Result<Vec<T>, AllocError>
    ensures { IfOk result (λ copies. copies.items ≡ rows.now) }
{
    let mut copies = Vec::with_capacity(alloc, rows.len())?;
    for row in rows {
        copies.push(row.copied(alloc)?)?;
    }
    Ok(copies)
}

/// Returns a copy of all rows in the same order.
///
/// # Errors
///
/// Returns `AllocError` if an allocation fails.
pub(crate) fn copy_of(alloc: Global, tables: &Tables) -> Result<Tables, AllocError>
    ensures { IfOk result (λ copy. copy ≡ tables.now) }
{
    Ok(Tables {
        products: copies(alloc, tables.products.as_slice())?,
        lots: copies(alloc, tables.lots.as_slice())?,
        batches: copies(alloc, tables.batches.as_slice())?,
        records: copies(alloc, tables.records.as_slice())?,
        groupings: copies(alloc, tables.groupings.as_slice())?,
        sessions: copies(alloc, tables.sessions.as_slice())?,
        words: copies(alloc, tables.words.as_slice())?,
        blanks: copies(alloc, tables.blanks.as_slice())?,
        remakes: copies(alloc, tables.remakes.as_slice())?,
        replies: copies(alloc, tables.replies.as_slice())?,
        marks: copies(alloc, tables.marks.as_slice())?,
    })
}
