//! Inserts remakes, kept replies and release marks, in an open transaction.
ghost use Rattle.table_rows.specs.Tables.{with_mark, with_remake, with_reply};

use crate::putting::{Put, fit};
use row_writes::add_remake;
use sql_base::int;
use sqlite::types::ValueRef;
use sqlite::{Alter, Error, Transaction};
use table_rows::{StoredMark, StoredRemake, StoredReply};

impl Put for StoredRemake {
    ghost with_row = { with_remake };

    fn put<S: Alter>(&self, tx: &mut Transaction<'_, S>) -> Result<usize, Error> {
        if !fit(self.batch, self.place, self.turn, 0) {
            return Err(Error::InvalidQuery);
        }
        add_remake(tx, self.batch, self.place, self.turn)
    }
}

impl Put for StoredReply {
    ghost with_row = { with_reply };

    fn put<S: Alter>(&self, tx: &mut Transaction<'_, S>) -> Result<usize, Error> {
        if !fit(self.number, self.status, 0, 0) {
            return Err(Error::InvalidQuery);
        }
        tx.execute(
            "INSERT INTO reply (client, number, ask, status, body) VALUES (?1, ?2, ?3, ?4, ?5)",
            &[
                ValueRef::Text(self.client.as_slice()),
                int(self.number),
                ValueRef::Blob(self.ask.as_slice()),
                int(self.status),
                ValueRef::Blob(self.body.as_slice()),
            ],
        )
    }
}

impl Put for StoredMark {
    ghost with_row = { with_mark };

    fn put<S: Alter>(&self, tx: &mut Transaction<'_, S>) -> Result<usize, Error> {
        if !fit(self.upto, 0, 0, 0) {
            return Err(Error::InvalidQuery);
        }
        tx.execute(
            "INSERT INTO mark (client, upto) VALUES (?1, ?2)",
            &[ValueRef::Text(self.client.as_slice()), int(self.upto)],
        )
    }
}
