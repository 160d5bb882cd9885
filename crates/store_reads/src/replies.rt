//! Reads kept replies and release marks.
ghost use Rattle.std.specs.Prelude.{false, length, option_map, ◌≡◌};
ghost use Rattle.sqlite.specs.Held.{state};
ghost use Rattle.job_facts.specs.Contents.{entry_of, mark_of, reply_of_entry};
ghost use Rattle.store_reads.specs.ReadsContents.{FindsContents};

use crate::numbers::is_in_range;
use job_facts::KeptReply;
use sqlite::{Alter, Connection, Error};
use store_data::Name;

/// Returns the reply that is kept under the number `number` of `client`.
pub fn kept<S: Alter>(
    conn: &mut Connection<S>,
    client: &Name,
    number: u64,
) -> Result<Option<KeptReply>, Error>
    requires { conn.old.in_transaction ≡ false }
    ensures { FindsContents (state S.Store conn.old) (state S.Store conn.new) result
        (λ c answer. answer ≡ option_map reply_of_entry (entry_of c.kept client.now number)) }
{
    if !is_in_range(number) {
        return Err(Error::InvalidQuery);
    }
    row_laws::replies_by_number();
    row_reads::kept(conn, client, number)
}

/// Returns the release mark of `client`, or 0 if it has released nothing.
pub fn mark<S: Alter>(conn: &mut Connection<S>, client: &Name) -> Result<u64, Error>
    requires { conn.old.in_transaction ≡ false }
    ensures { FindsContents (state S.Store conn.old) (state S.Store conn.new) result
        (λ c answer. answer ≡ mark_of c.marks client.now) }
{
    row_laws::replies_by_number();
    row_reads::mark(conn, client)
}

/// Returns the number of kept replies.
pub fn reply_count<S: Alter>(conn: &mut Connection<S>) -> Result<u64, Error>
    requires { conn.old.in_transaction ≡ false }
    ensures { FindsContents (state S.Store conn.old) (state S.Store conn.new) result
        (λ c answer. answer ≡ length c.kept) }
{
    row_reads::reply_count(conn)
}
