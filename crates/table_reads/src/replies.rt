//! Reads replies without their request bytes and bodies, which the audit doesn't need, and reads
//! these bytes later if they are needed.
ghost use Rattle.std.specs.Prelude.{◌≡◌, ◌↔◌, ℕ, false, map, All, IfOk, IsTrue};
ghost use Rattle.std.specs.Prelude.{MatchOption};
ghost use Rattle.sqlite.specs.Held.{state};
ghost use Rattle.sqlite.specs.State.{HasCleanDisk, is_disk_error};
ghost use Rattle.sql_base.specs.Rowids.{AreApart};
ghost use Rattle.sql_base.specs.Unchanged.{LooksWithCause};
ghost use Rattle.sql_rows.specs.Encoding.{reply_row};
ghost use Rattle.sql_rows.specs.Image.{given_rows};
ghost use Rattle.sql_tables.specs.Finds.{Finds};
ghost use Rattle.sql_tables.specs.Tables.{reply_at};
ghost use Rattle.sql_tables.specs.declared.versions.Version.{Version};
ghost use Rattle.table_rows.specs.Tables.{HaveSameRows, Tables as TablesValue};
ghost use Rattle.table_reads.specs.Holding.{HoldsRows};
ghost use Rattle.table_reads.specs.Replies.{StandWithoutBytes, brief_of};
ghost use Rattle.table_reads.specs.Shown.{IsAny, IsBriefRow};
ghost use Rattle.table_reads.specs.Unread.{without_reply_bytes};
ghost use Rattle.table_reads.specs.Whole.{NoneFit};

use crate::conversion::Conversion;
use crate::reads::{TableRows, converted, whole};
use crate::values::{bytes_at, is_number, is_text, number_at};
use sqlite::{Alter, Connection, Error, Row};
use std::alloc::Global;
use table_rows::{StoredReply, Tables};

#[tactic(auto, unfolding(crate::specs::Shown::IsBriefRow))]
fn is_brief(row: &Row) -> bool
    ensures { IsTrue result ↔ IsBriefRow row.now }
{
    row.column_count() == 4 && is_text(row, 1) && is_number(row, 2) && is_number(row, 3)
}

// The conversion of the rows of `reply` without their request bytes and bodies.
struct BriefReply;

impl Conversion<StoredReply> for BriefReply {
    ghost is_row = { IsBriefRow };

    ghost gives = { λ row reply. IsBriefRow row × (reply ≡ brief_of row) };

    fn convert(alloc: Global, row: &Row) -> Result<Option<StoredReply>, Error> {
        if !is_brief(row) {
            return Ok(None);
        }
        let client = bytes_at(alloc, row, 1)?;
        Ok(Some(StoredReply {
            client,
            number: number_at(row, 2),
            ask: Vec::new(alloc),
            status: number_at(row, 3),
            body: Vec::new(alloc),
        }))
    }
}

// Returns all replies without their request bytes and bodies, and whether their rowids are
// different. Returns `None` if a row isn't a reply.
pub(crate) fn brief_replies<S: Alter>(
    alloc: Global,
    conn: &mut Connection<S>,
) -> Result<Option<TableRows<StoredReply>>, Error>
    requires { conn.old.in_transaction ≡ false }
    ensures value { HasCleanDisk (state S.Store conn.new) → IfOk result
        (λ found. IsTrue (state S.Store conn.old).is_open × ((tree : ℕ)
        → Finds (state S.Store conn.old).now.schema (reply_at tree) → MatchOption found
        (NoneFit reply_row IsAny
        (given_rows false ((state S.Store conn.old).now.trees tree)))
        (λ all. StandWithoutBytes all.rows.items
        (given_rows false ((state S.Store conn.old).now.trees tree))
        × (IsTrue all.apart ↔ AreApart ((state S.Store conn.old).now.trees tree))))) }
    ensures looks { LooksWithCause S.Store conn.old conn.new result }
{
    let sql = "SELECT rowid, client, number, status FROM reply";
    converted::<StoredReply, BriefReply, S>(alloc, conn, sql)
}

/// Returns the rows `tables` with the request bytes and bodies of the replies, which it reads from
/// the database. Returns `None` only if the database holds other rows. The database isn't changed,
/// even by a crash.
pub fn with_reply_bytes<S: Alter>(
    conn: &mut Connection<S>,
    mut tables: Tables,
) -> Result<Option<Tables>, Error>
    requires { conn.old.in_transaction ≡ false }
    ensures value { HasCleanDisk (state S.Store conn.new) → IfOk result
        (λ found. IsTrue (state S.Store conn.old).is_open × ((v : Version) (t : TablesValue)
        → HoldsRows v t (state S.Store conn.old).now
        → HaveSameRows tables (without_reply_bytes t)
        → MatchOption found ⊥ (λ all. HaveSameRows all t))) }
    ensures looks { LooksWithCause S.Store conn.old conn.new result }
{
    let alloc = *tables.replies.allocator();
    let Some(replies) = whole(alloc, conn, "SELECT rowid, * FROM reply")? else {
        return Ok(None);
    };
    tables.replies = replies.rows;
    Ok(Some(tables))
}
