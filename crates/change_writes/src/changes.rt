//! Executes the statements of a write, in an open transaction. A crash before its commit leaves no
//! trace of them.
ghost use Rattle.sql_rows.specs.Many.{WritesInParts};
ghost use Rattle.table_rows.specs.After.{rows_after};
ghost use Rattle.change_writes.specs.Writable.{IsWritable};

use crate::cards::{write_discard, write_end, write_last_word, write_opened, write_word};
use crate::imports::write_batch;
use crate::records::{write_passed, write_remake};
use crate::releases::write_release;
use job_facts::{RecordState, SessionState};
use row_writes::{add_lot, add_product, set_closed};
use sqlite::{Alter, Error, Transaction};
use std::alloc::Global;
use table_rows::Writing;

/// Writes everything except the reply, and returns the number of rows that the last statement
/// changed. After an error the caller must drop the transaction.
pub(crate) fn write_change<S: Alter>(
    tx: &mut Transaction<'_, S>,
    alloc: Global,
    writing: &Writing<'_>,
) -> Result<usize, Error>
    requires { IsWritable writing.now }
    ensures { WritesInParts S.Store (rows_after writing.now) tx.old.conn tx.new.conn result }
{
    match writing {
        Writing::Nothing => Ok(0),
        Writing::AddsProduct { product } => add_product(tx, product),
        Writing::AddsLot { lot } => add_lot(tx, lot),
        Writing::AddsBatch { batch } => write_batch(tx, alloc, batch),
        Writing::Opens { session, place } => write_opened(tx, session, place),
        Writing::AddsWord { word } => write_word(tx, word, SessionState::Running),
        Writing::AddsLastWord {
            word,
            stands,
            place,
        } => write_last_word(tx, word, *stands, place),
        Writing::Ends { session, place } => write_end(tx, *session, place),
        Writing::Discards {
            blank,
            lot,
            discarded,
        } => write_discard(tx, *blank, lot, *discarded),
        Writing::Remakes { place } => write_remake(tx, place),
        Writing::Withdraws { was, place } => write_passed(tx, place, *was, RecordState::Withdrawn),
        Writing::Closes { batch } => set_closed(tx, batch),
        Writing::Releases { client, upto } => write_release(tx, client, *upto),
    }
}
