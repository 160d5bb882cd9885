//! The rows of products, lots, batches and records.
ghost use Rattle.std.specs.Prelude.{false, true};
ghost use Rattle.sql_rows.specs.Encoding.{batch_row, lot_row, product_row, record_row};
ghost use Rattle.table_reads.specs.Encoded.{batch_law, lot_law, product_law, record_law};
ghost use Rattle.table_reads.specs.Shown.{FitsLot, FitsProduct, IsAny, IsBatchRow, IsLotRow};
ghost use Rattle.table_reads.specs.Shown.{IsProductRow, IsRecordRow};

use crate::stored::Stored;
use crate::values::{
    byte_at, bytes_at, flag_at, is_below, is_blob, is_number, is_text, long_at, number_at,
    record_state_at,
};
use sqlite::{Error, Row};
use std::alloc::Global;
use table_rows::{StoredBatch, StoredLot, StoredProduct, StoredRecord};

impl Stored for StoredProduct {
    ghost encode = { product_row };

    ghost fits = { FitsProduct };

    ghost is_row = { IsProductRow };

    ghost by_rowid = { false };

    #[tactic(auto, unfolding(crate::specs::Shown::IsProductRow))]
    fn is_in(row: &Row) -> bool {
        row.column_count() == 5
            && is_text(row, 1)
            && is_below(row, 2, 256)
            && is_below(row, 3, 256)
            && is_below(row, 4, 2)
    }

    fn read(alloc: Global, row: &Row) -> Result<StoredProduct, Error> {
        let name = bytes_at(alloc, row, 1)?;
        let max = byte_at(row, 2);
        let low = byte_at(row, 3);
        let checked = flag_at(row, 4);
        Ok(StoredProduct {
            name,
            max,
            low,
            checked,
        })
    }

    ghost shaped = { product_law };
}

impl Stored for StoredLot {
    ghost encode = { lot_row };

    ghost fits = { FitsLot };

    ghost is_row = { IsLotRow };

    ghost by_rowid = { false };

    #[tactic(auto, unfolding(crate::specs::Shown::IsLotRow))]
    fn is_in(row: &Row) -> bool {
        row.column_count() == 6
            && is_text(row, 1)
            && is_text(row, 2)
            && is_number(row, 3)
            && is_below(row, 4, 4_294_967_296)
            && is_number(row, 5)
    }

    fn read(alloc: Global, row: &Row) -> Result<StoredLot, Error> {
        let name = bytes_at(alloc, row, 1)?;
        let product = bytes_at(alloc, row, 2)?;
        let low_serial = number_at(row, 3);
        let amount = long_at(row, 4);
        let discarded = number_at(row, 5);
        Ok(StoredLot {
            name,
            product,
            low_serial,
            amount,
            discarded,
        })
    }

    ghost shaped = { lot_law };
}

impl Stored for StoredBatch {
    ghost encode = { batch_row };

    ghost fits = { IsAny };

    ghost is_row = { IsBatchRow };

    ghost by_rowid = { true };

    #[tactic(auto, unfolding(crate::specs::Shown::IsBatchRow))]
    fn is_in(row: &Row) -> bool {
        row.column_count() == 12
            && is_number(row, 0)
            && is_text(row, 1)
            && is_text(row, 2)
            && is_blob(row, 3)
            && is_below(row, 4, 2)
            && is_number(row, 5)
            && is_number(row, 6)
            && is_number(row, 7)
            && is_number(row, 8)
            && is_number(row, 9)
            && is_number(row, 10)
            && is_number(row, 11)
    }

    fn read(alloc: Global, row: &Row) -> Result<StoredBatch, Error> {
        let id = number_at(row, 0);
        let name = bytes_at(alloc, row, 1)?;
        let product = bytes_at(alloc, row, 2)?;
        let raw = bytes_at(alloc, row, 3)?;
        let closed = flag_at(row, 4);
        let waiting = number_at(row, 5);
        let running = number_at(row, 6);
        let failed = number_at(row, 7);
        let withdrawn = number_at(row, 8);
        let good = number_at(row, 9);
        let sessions = number_at(row, 10);
        let spoiled = number_at(row, 11);
        Ok(StoredBatch {
            id,
            name,
            product,
            raw,
            closed,
            waiting,
            running,
            failed,
            withdrawn,
            good,
            sessions,
            spoiled,
        })
    }

    ghost shaped = { batch_law };
}

impl Stored for StoredRecord {
    ghost encode = { record_row };

    ghost fits = { IsAny };

    ghost is_row = { IsRecordRow };

    ghost by_rowid = { false };

    #[tactic(auto, unfolding(crate::specs::Shown::IsRecordRow))]
    fn is_in(row: &Row) -> bool {
        row.column_count() == 7
            && is_number(row, 1)
            && is_number(row, 2)
            && is_text(row, 3)
            && is_below(row, 4, 5)
            && is_number(row, 5)
            && is_number(row, 6)
    }

    fn read(alloc: Global, row: &Row) -> Result<StoredRecord, Error> {
        let batch = number_at(row, 1);
        let place = number_at(row, 2);
        let name = bytes_at(alloc, row, 3)?;
        let state = record_state_at(row, 4);
        let spoiled = number_at(row, 5);
        let remakes = number_at(row, 6);
        Ok(StoredRecord {
            batch,
            place,
            name,
            state,
            spoiled,
            remakes,
        })
    }

    ghost shaped = { record_law };
}
