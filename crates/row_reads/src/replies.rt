//! The statements that read the table `reply`.
ghost use Rattle.std.specs.Prelude.{◌≡◌, ◌<◌, ◌^◌, ℕ, false, length, option_map, IfOk};
ghost use Rattle.sqlite.specs.Held.{state};
ghost use Rattle.job_facts.specs.Contents.{entry_of, reply_of_entry};
ghost use Rattle.row_reads.specs.Counts.{shown_count};
ghost use Rattle.row_reads.specs.Decoding.{IsAny, first_number, reply_in};
ghost use Rattle.row_reads.specs.Readable.{IsReplyAnswer};
ghost use Rattle.row_reads.specs.Reads.{FindsRows};
ghost use Rattle.table_rows.specs.Keys.{is_reply_to};
ghost use Rattle.table_rows.specs.Tables.{PassesOnce};

use crate::answered::{Answered, one_of};
use crate::values::{bytes_at, first_number, within_at};
use job_facts::KeptReply;
use sql_base::{int, rows_of};
use sqlite::types::ValueRef;
use sqlite::{Alter, Connection, Error, Row};
use store_data::Name;

impl Answered for KeptReply {
    ghost value = { reply_in };

    ghost fits = { IsAny };

    ghost readable = { IsReplyAnswer };

    fn read(row: &Row) -> Result<KeptReply, Error> {
        let ask = bytes_at(row, 0)?;
        let status = within_at(row, 1, 0, 65535)? as u16;
        let body = bytes_at(row, 2)?;
        Ok(KeptReply { ask, status, body })
    }
}

/// Returns the reply that is kept under the number `number` of `client`.
pub fn kept<S: Alter>(
    conn: &mut Connection<S>,
    client: &Name,
    number: u64,
) -> Result<Option<KeptReply>, Error>
    requires idle { conn.old.in_transaction ≡ false }
    requires number { number < 2 ^ 63 }
    ensures { FindsRows (state S.Store conn.old) (state S.Store conn.new) result
        (λ t found. PassesOnce (is_reply_to client.now number) t.replies
        → found ≡ option_map reply_of_entry (entry_of t.replies client.now number)) }
{
    let sql = "SELECT ask, status, body FROM reply WHERE client = ?1 AND number = ?2";
    one_of(conn, sql, &[ValueRef::Text(client.bytes()), int(number)])
}

// Returns the result of a `count(*)`. If there are more rows than the maximum integer of SQLite,
// the result is that maximum. It is therefore refused with `InvalidQuery`.
fn whole_count(rows: &[Row]) -> Result<u64, Error>
    ensures { IfOk result (λ n. (m : ℕ) → first_number rows.now ≡ shown_count m → n ≡ m) }
{
    let count = first_number(rows)?;
    if count == i64::MAX as u64 {
        return Err(Error::InvalidQuery);
    }
    Ok(count)
}

/// Returns the number of kept replies.
pub fn reply_count<S: Alter>(conn: &mut Connection<S>) -> Result<u64, Error>
    requires { conn.old.in_transaction ≡ false }
    ensures { FindsRows (state S.Store conn.old) (state S.Store conn.new) result
        (λ t count. count ≡ length t.replies) }
{
    let rows = rows_of(conn, "SELECT count(*) FROM reply", &[])?;
    whole_count(rows.as_slice())
}
