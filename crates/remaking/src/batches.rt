//! Inserts products, lots and batches, with their records and groupings, in an open transaction.
ghost use Rattle.table_rows.specs.Tables.{with_grouping, with_lot, with_product, with_record};
ghost use Rattle.remaking.specs.Rows.{with_bare};

use crate::putting::{Put, fit};
use row_writes::{enc_code, record_code};
use sql_base::int;
use sqlite::types::ValueRef;
use sqlite::{Alter, Error, Transaction};
use table_rows::{StoredBatch, StoredGrouping, StoredLot, StoredProduct, StoredRecord};

impl Put for StoredProduct {
    ghost with_row = { with_product };

    fn put<S: Alter>(&self, tx: &mut Transaction<'_, S>) -> Result<usize, Error> {
        tx.execute(
            "INSERT INTO product (name, max, low, checked) VALUES (?1, ?2, ?3, ?4)",
            &[
                ValueRef::Text(self.name.as_slice()),
                int(u64::from(self.max)),
                int(u64::from(self.low)),
                int(u64::from(self.checked)),
            ],
        )
    }
}

impl Put for StoredLot {
    ghost with_row = { with_lot };

    fn put<S: Alter>(&self, tx: &mut Transaction<'_, S>) -> Result<usize, Error> {
        if !fit(self.low_serial, self.discarded, 0, 0) {
            return Err(Error::InvalidQuery);
        }
        tx.execute(
            "INSERT INTO lot (name, product, low_serial, amount, discarded) VALUES (?1, ?2, ?3, \
            ?4, ?5)",
            &[
                ValueRef::Text(self.name.as_slice()),
                ValueRef::Text(self.product.as_slice()),
                int(self.low_serial),
                int(u64::from(self.amount)),
                int(self.discarded),
            ],
        )
    }
}

// The bytes aren't inserted yet, because SQLite reads the whole row of the batch for every record
// that refers to it.
impl Put for StoredBatch {
    ghost with_row = { with_bare };

    fn put<S: Alter>(&self, tx: &mut Transaction<'_, S>) -> Result<usize, Error> {
        if !fit(self.id, self.waiting, self.running, self.failed) {
            return Err(Error::InvalidQuery);
        }
        if !fit(self.withdrawn, self.good, self.sessions, self.spoiled) {
            return Err(Error::InvalidQuery);
        }
        tx.execute(
            "INSERT INTO batch (id, name, product, raw, closed, waiting, running, failed, \
            withdrawn, good, sessions, spoiled) VALUES (?1, ?2, ?3, ?4, ?5, ?6, ?7, ?8, ?9, \
            ?10, ?11, ?12)",
            &[
                int(self.id),
                ValueRef::Text(self.name.as_slice()),
                ValueRef::Text(self.product.as_slice()),
                ValueRef::Blob(&[]),
                int(u64::from(self.closed)),
                int(self.waiting),
                int(self.running),
                int(self.failed),
                int(self.withdrawn),
                int(self.good),
                int(self.sessions),
                int(self.spoiled),
            ],
        )
    }
}

impl Put for StoredRecord {
    ghost with_row = { with_record };

    fn put<S: Alter>(&self, tx: &mut Transaction<'_, S>) -> Result<usize, Error> {
        if !fit(self.batch, self.place, self.spoiled, self.remakes) {
            return Err(Error::InvalidQuery);
        }
        tx.execute(
            "INSERT INTO record (batch, place, name, state, spoiled, remakes) VALUES (?1, ?2, \
            ?3, ?4, ?5, ?6)",
            &[
                int(self.batch),
                int(self.place),
                ValueRef::Text(self.name.as_slice()),
                int(record_code(self.state)),
                int(self.spoiled),
                int(self.remakes),
            ],
        )
    }
}

impl Put for StoredGrouping {
    ghost with_row = { with_grouping };

    fn put<S: Alter>(&self, tx: &mut Transaction<'_, S>) -> Result<usize, Error> {
        if !fit(self.batch, self.line, self.place, 0) {
            return Err(Error::InvalidQuery);
        }
        tx.execute(
            "INSERT INTO grouping2 (batch, line, place, aid, rank, enc, tol, coded) VALUES \
            (?,?,?,?,?,?,?,?)",
            &[
                int(self.batch),
                int(self.line),
                int(self.place),
                ValueRef::Blob(self.aid.as_slice()),
                int(u64::from(self.rank)),
                int(enc_code(self.enc)),
                int(u64::from(self.tol)),
                ValueRef::Blob(self.coded.as_slice()),
            ],
        )
    }
}
