//! Reads lots, and whether a blank is charged.
ghost use Rattle.std.specs.Prelude.{false, ◌≡◌};
ghost use Rattle.sqlite.specs.Held.{state};
ghost use Rattle.job_facts.specs.States.{any_overlaps, is_charged, lot_named, lot_of};
ghost use Rattle.store_reads.specs.ReadsContents.{FindsContents};

use crate::numbers::is_in_range;
use job_facts::{Lot, lot_among};
use sqlite::{Alter, Connection, Error};
use store_data::Name;

/// Returns the lot with the name `name`.
pub fn lot<S: Alter>(conn: &mut Connection<S>, name: &Name) -> Result<Option<Lot>, Error>
    requires { conn.old.in_transaction ≡ false }
    ensures { FindsContents (state S.Store conn.old) (state S.Store conn.new) result
        (λ c answer. answer ≡ lot_named c.facts.lots name.now) }
{
    row_laws::lots_by_name();
    let found = row_reads::lot(conn, name)?;
    Ok(found.map(|row| row.lot))
}

/// Returns the lot that contains the blank `blank`. Lots share no serial, so only the last lot that
/// starts at or before `blank` can contain it.
pub fn lot_of<S: Alter>(conn: &mut Connection<S>, blank: u64) -> Result<Option<Lot>, Error>
    requires { conn.old.in_transaction ≡ false }
    ensures { FindsContents (state S.Store conn.old) (state S.Store conn.new) result
        (λ c answer. answer ≡ lot_of c.facts.lots blank) }
{
    row_laws::lots_by_name();
    let last = row_reads::last_lot(conn, blank)?;
    Ok(lot_among(last.as_slice(), blank).copied())
}

/// Returns `true` if a lot contains one of the `count` serials that start with `first`.
pub fn overlaps<S: Alter>(conn: &mut Connection<S>, first: u64, count: u32) -> Result<bool, Error>
    requires { conn.old.in_transaction ≡ false }
    ensures { FindsContents (state S.Store conn.old) (state S.Store conn.new) result
        (λ c answer. answer ≡ any_overlaps c.facts.lots first count) }
{
    row_laws::lots_by_name();
    row_reads::overlaps(conn, first, count)
}

/// Returns `true` if `blank` is charged by an `open` or a `discard`.
pub fn is_charged<S: Alter>(conn: &mut Connection<S>, blank: u64) -> Result<bool, Error>
    requires { conn.old.in_transaction ≡ false }
    ensures { FindsContents (state S.Store conn.old) (state S.Store conn.new) result
        (λ c answer. answer ≡ is_charged c.facts blank) }
{
    if !is_in_range(blank) {
        return Err(Error::InvalidQuery);
    }
    row_laws::blanks_by_serial();
    row_reads::is_charged(conn, blank)
}
