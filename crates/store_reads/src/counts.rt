//! Reads the numbers of products, lots, batches and sessions.
ghost use Rattle.std.specs.Prelude.{IfOk, false, length, ◌<◌, ◌^◌, ◌≡◌};
ghost use Rattle.sqlite.specs.Held.{state};
ghost use Rattle.row_reads.specs.Reads.{Looks};
ghost use Rattle.store_reads.specs.ReadsContents.{FindsContents, ReadsContents};

use row_reads::{last_batch, last_session};
use sqlite::{Alter, Connection, Error};

/// Returns the number of products.
pub fn product_count<S: Alter>(conn: &mut Connection<S>) -> Result<u64, Error>
    requires { conn.old.in_transaction ≡ false }
    ensures { FindsContents (state S.Store conn.old) (state S.Store conn.new) result
        (λ c answer. answer ≡ length c.facts.products) }
{
    row_reads::product_count(conn)
}

/// Returns the number of lots.
pub fn lot_count<S: Alter>(conn: &mut Connection<S>) -> Result<u64, Error>
    requires { conn.old.in_transaction ≡ false }
    ensures { FindsContents (state S.Store conn.old) (state S.Store conn.new) result
        (λ c answer. answer ≡ length c.facts.lots) }
{
    row_laws::numbers_of_rows();
    row_reads::lot_count(conn)
}

/// Returns the number of batches.
pub fn batch_count<S: Alter>(conn: &mut Connection<S>) -> Result<u64, Error>
    requires { conn.old.in_transaction ≡ false }
    ensures { FindsContents (state S.Store conn.old) (state S.Store conn.new) result
        (λ c answer. answer ≡ length c.facts.batches) }
{
    row_laws::numbers_of_rows();
    last_batch(conn)
}

/// Returns the number of sessions.
pub fn session_count<S: Alter>(conn: &mut Connection<S>) -> Result<u64, Error>
    requires { conn.old.in_transaction ≡ false }
    ensures value { ReadsContents (state S.Store conn.old) (state S.Store conn.new) result
        (λ c answer. answer ≡ length c.facts.sessions) }
    ensures ranged { IfOk result (λ answer. answer < 2 ^ 63) }
    ensures looks { Looks (state S.Store conn.old) (state S.Store conn.new) }
{
    row_laws::numbers_of_rows();
    last_session(conn)
}
