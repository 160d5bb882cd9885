//! Inserts sessions, their status words and their blanks, in an open transaction.
ghost use Rattle.table_rows.specs.Tables.{with_blank, with_session, with_word};

use crate::putting::{Put, fit};
use row_writes::session_code;
use sql_base::int;
use sqlite::types::ValueRef;
use sqlite::{Alter, Error, Transaction};
use table_rows::{StoredBlank, StoredSession, StoredWord};

impl Put for StoredSession {
    ghost with_row = { with_session };

    fn put<S: Alter>(&self, tx: &mut Transaction<'_, S>) -> Result<usize, Error> {
        if !fit(self.id, self.batch, self.place, self.serial) {
            return Err(Error::InvalidQuery);
        }
        if !fit(self.words, self.app, self.segment, self.offset) {
            return Err(Error::InvalidQuery);
        }
        if !fit(self.block, 0, 0, 0) {
            return Err(Error::InvalidQuery);
        }
        tx.execute(
            "INSERT INTO session (id, machine, batch, place, serial, state, ended, words, app, \
            segment, at_offset, block) VALUES (?1, ?2, ?3, ?4, ?5, ?6, ?7, ?8, ?9, ?10, ?11, \
            ?12)",
            &[
                int(self.id),
                ValueRef::Text(self.machine.as_slice()),
                int(self.batch),
                int(self.place),
                int(self.serial),
                int(session_code(self.state)),
                int(u64::from(self.ended)),
                int(self.words),
                int(self.app),
                int(self.segment),
                int(self.offset),
                int(self.block),
            ],
        )
    }
}

impl Put for StoredWord {
    ghost with_row = { with_word };

    fn put<S: Alter>(&self, tx: &mut Transaction<'_, S>) -> Result<usize, Error> {
        if !fit(self.session, self.place, 0, 0) {
            return Err(Error::InvalidQuery);
        }
        tx.execute(
            "INSERT INTO word (session, place, sw) VALUES (?1, ?2, ?3)",
            &[int(self.session), int(self.place), int(u64::from(self.sw))],
        )
    }
}

impl Put for StoredBlank {
    ghost with_row = { with_blank };

    fn put<S: Alter>(&self, tx: &mut Transaction<'_, S>) -> Result<usize, Error> {
        if !fit(self.serial, 0, 0, 0) {
            return Err(Error::InvalidQuery);
        }
        tx.execute(
            "INSERT INTO blank (serial, lot, kind) VALUES (?1, ?2, ?3)",
            &[
                int(self.serial),
                ValueRef::Text(self.lot.as_slice()),
                int(u64::from(self.discarded)),
            ],
        )
    }
}
