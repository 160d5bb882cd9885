//! The rows of groupings, sessions, status words, blanks, remakes, replies and release marks.
ghost use Rattle.std.specs.Prelude.{false, true};
ghost use Rattle.sql_rows.specs.Encoding.{blank_row, grouping_row, mark_row, remake_row};
ghost use Rattle.sql_rows.specs.Encoding.{reply_row, session_row, word_row};
ghost use Rattle.table_reads.specs.Encoded.{blank_law, grouping_law, mark_law, remake_law};
ghost use Rattle.table_reads.specs.Encoded.{reply_law, session_law, word_law};
ghost use Rattle.table_reads.specs.Shown.{FitsGrouping, FitsWord, IsAny, IsBlankRow};
ghost use Rattle.table_reads.specs.Shown.{IsGroupingRow, IsMarkRow, IsRemakeRow, IsReplyRow};
ghost use Rattle.table_reads.specs.Shown.{IsSessionRow, IsWordRow};

use crate::stored::Stored;
use crate::values::{
    bytes_at, enc_at, flag_at, is_below, is_blob, is_number, is_text, number_at, session_state_at,
    short_at,
};
use sqlite::{Error, Row};
use std::alloc::Global;
use table_rows::{
    StoredBlank, StoredGrouping, StoredMark, StoredRemake, StoredReply, StoredSession, StoredWord,
};

impl Stored for StoredGrouping {
    ghost encode = { grouping_row };

    ghost fits = { FitsGrouping };

    ghost is_row = { IsGroupingRow };

    ghost by_rowid = { false };

    #[tactic(auto, unfolding(crate::specs::Shown::IsGroupingRow))]
    fn is_in(row: &Row) -> bool {
        row.column_count() == 9
            && is_number(row, 1)
            && is_number(row, 2)
            && is_number(row, 3)
            && is_blob(row, 4)
            && is_below(row, 5, 65_536)
            && is_below(row, 6, 3)
            && is_below(row, 7, 2)
            && is_blob(row, 8)
    }

    fn read(alloc: Global, row: &Row) -> Result<StoredGrouping, Error> {
        let batch = number_at(row, 1);
        let line = number_at(row, 2);
        let place = number_at(row, 3);
        let aid = bytes_at(alloc, row, 4)?;
        let rank = short_at(row, 5);
        let enc = enc_at(row, 6);
        let tol = flag_at(row, 7);
        let coded = bytes_at(alloc, row, 8)?;
        Ok(StoredGrouping {
            batch,
            line,
            place,
            aid,
            rank,
            enc,
            tol,
            coded,
        })
    }

    ghost shaped = { grouping_law };
}

impl Stored for StoredSession {
    ghost encode = { session_row };

    ghost fits = { IsAny };

    ghost is_row = { IsSessionRow };

    ghost by_rowid = { true };

    #[tactic(auto, unfolding(crate::specs::Shown::IsSessionRow))]
    fn is_in(row: &Row) -> bool {
        row.column_count() == 12
            && is_number(row, 0)
            && is_text(row, 1)
            && is_number(row, 2)
            && is_number(row, 3)
            && is_number(row, 4)
            && is_below(row, 5, 3)
            && is_below(row, 6, 2)
            && is_number(row, 7)
            && is_number(row, 8)
            && is_number(row, 9)
            && is_number(row, 10)
            && is_number(row, 11)
    }

    fn read(alloc: Global, row: &Row) -> Result<StoredSession, Error> {
        let id = number_at(row, 0);
        let machine = bytes_at(alloc, row, 1)?;
        let batch = number_at(row, 2);
        let place = number_at(row, 3);
        let serial = number_at(row, 4);
        let state = session_state_at(row, 5);
        let ended = flag_at(row, 6);
        let words = number_at(row, 7);
        let app = number_at(row, 8);
        let segment = number_at(row, 9);
        let offset = number_at(row, 10);
        let block = number_at(row, 11);
        Ok(StoredSession {
            id,
            machine,
            batch,
            place,
            serial,
            state,
            ended,
            words,
            app,
            segment,
            offset,
            block,
        })
    }

    ghost shaped = { session_law };
}

impl Stored for StoredWord {
    ghost encode = { word_row };

    ghost fits = { FitsWord };

    ghost is_row = { IsWordRow };

    ghost by_rowid = { false };

    #[tactic(auto, unfolding(crate::specs::Shown::IsWordRow))]
    fn is_in(row: &Row) -> bool {
        row.column_count() == 4
            && is_number(row, 1)
            && is_number(row, 2)
            && is_below(row, 3, 65_536)
    }

    fn read(_alloc: Global, row: &Row) -> Result<StoredWord, Error> {
        let session = number_at(row, 1);
        let place = number_at(row, 2);
        let sw = short_at(row, 3);
        Ok(StoredWord { session, place, sw })
    }

    ghost shaped = { word_law };
}

impl Stored for StoredBlank {
    ghost encode = { blank_row };

    ghost fits = { IsAny };

    ghost is_row = { IsBlankRow };

    ghost by_rowid = { true };

    #[tactic(auto, unfolding(crate::specs::Shown::IsBlankRow))]
    fn is_in(row: &Row) -> bool {
        row.column_count() == 3 && is_number(row, 0) && is_text(row, 1) && is_below(row, 2, 2)
    }

    fn read(alloc: Global, row: &Row) -> Result<StoredBlank, Error> {
        let serial = number_at(row, 0);
        let lot = bytes_at(alloc, row, 1)?;
        let discarded = flag_at(row, 2);
        Ok(StoredBlank {
            serial,
            lot,
            discarded,
        })
    }

    ghost shaped = { blank_law };
}

impl Stored for StoredRemake {
    ghost encode = { remake_row };

    ghost fits = { IsAny };

    ghost is_row = { IsRemakeRow };

    ghost by_rowid = { false };

    #[tactic(auto, unfolding(crate::specs::Shown::IsRemakeRow))]
    fn is_in(row: &Row) -> bool {
        row.column_count() == 4 && is_number(row, 1) && is_number(row, 2) && is_number(row, 3)
    }

    fn read(_alloc: Global, row: &Row) -> Result<StoredRemake, Error> {
        let batch = number_at(row, 1);
        let place = number_at(row, 2);
        let turn = number_at(row, 3);
        Ok(StoredRemake { batch, place, turn })
    }

    ghost shaped = { remake_law };
}

impl Stored for StoredReply {
    ghost encode = { reply_row };

    ghost fits = { IsAny };

    ghost is_row = { IsReplyRow };

    ghost by_rowid = { false };

    #[tactic(auto, unfolding(crate::specs::Shown::IsReplyRow))]
    fn is_in(row: &Row) -> bool {
        row.column_count() == 6
            && is_text(row, 1)
            && is_number(row, 2)
            && is_blob(row, 3)
            && is_number(row, 4)
            && is_blob(row, 5)
    }

    fn read(alloc: Global, row: &Row) -> Result<StoredReply, Error> {
        let client = bytes_at(alloc, row, 1)?;
        let number = number_at(row, 2);
        let ask = bytes_at(alloc, row, 3)?;
        let status = number_at(row, 4);
        let body = bytes_at(alloc, row, 5)?;
        Ok(StoredReply {
            client,
            number,
            ask,
            status,
            body,
        })
    }

    ghost shaped = { reply_law };
}

impl Stored for StoredMark {
    ghost encode = { mark_row };

    ghost fits = { IsAny };

    ghost is_row = { IsMarkRow };

    ghost by_rowid = { false };

    #[tactic(auto, unfolding(crate::specs::Shown::IsMarkRow))]
    fn is_in(row: &Row) -> bool {
        row.column_count() == 3 && is_text(row, 1) && is_number(row, 2)
    }

    fn read(alloc: Global, row: &Row) -> Result<StoredMark, Error> {
        let client = bytes_at(alloc, row, 1)?;
        let upto = number_at(row, 2);
        Ok(StoredMark { client, upto })
    }

    ghost shaped = { mark_law };
}
