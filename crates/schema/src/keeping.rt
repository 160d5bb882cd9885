//! Stores a change or a release together with its reply.
ghost use Rattle.std.specs.Prelude.{◌≡◌, ◌<◌, ◌^◌, false, OnErr, OnOk};
ghost use Rattle.sqlite.specs.Held.{state};
ghost use Rattle.sqlite.specs.State.{HasCleanDisk, Survives};
ghost use Rattle.job_facts.specs.Contents.{Entry as EntryValue, IsOwed, IsOwedRelease};
ghost use Rattle.job_facts.specs.Contents.{committed, released};
ghost use Rattle.sql_base.specs.Ends.{Ends, IsKept, IsLeft};
ghost use Rattle.change_writes.specs.Undone.{LeavesNoTraceIfUndone};
ghost use Rattle.change_writes.specs.Writable.{IsWritable};
ghost use Rattle.store_reads.specs.Known.{IsAllKnownIn, Knows};
ghost use Rattle.schema.specs.MovesContents.{MovesContents};
ghost use Rattle.table_rows.specs.After.{rows_written};
ghost use Rattle.job_facts.specs.Kept.{kept_reply};
ghost use Rattle.table_rows.specs.Tables.{Tables};

use change_writes::{commit, counters_after};
use job_facts::{Change, Entry, Failed};
use sqlite::{Alter, Connection, Error};
use std::alloc::Global;
use store_reads::{Known, writing_of};
use table_rows::Writing;

// Caches the counters that `writing` sets.
fn note_counters(known: &mut Known, writing: &Writing<'_>)
    requires { IsWritable writing.now }
    ensures { (t : Tables) (entry : EntryValue)
        → IsAllKnownIn (rows_written writing.now entry t) known.old
        → IsAllKnownIn (rows_written writing.now entry t) known.new }
{
    if let Some((batch, totals)) = counters_after(writing) {
        known.cache_counters(batch, &totals);
    }
}

/// Stores `change` and the reply in `entry` in one transaction. Cached entries that the change may
/// affect are removed before the transaction. The counters that it sets are cached after the
/// commit.
///
/// # Errors
///
/// Returns the error of SQLite if a read or the transaction fails. The contents are then unchanged.
/// An open after a crash finds what it could find before the call, or, unless the failure is
/// `undone`, the contents with the change and the reply.
pub(crate) fn keep<S: Alter>(
    conn: &mut Connection<S>,
    known: &mut Known,
    alloc: Global,
    entry: &Entry<'_>,
    change: &Change<'_>,
) -> Result<(), Failed<Error>>
    requires most { entry.now.number < 10 ^ 18 }
    requires idle { conn.old.in_transaction ≡ false }
    requires knows { Knows (state S.Store conn.old) known.old }
    ensures ok { let kept = kept_reply entry.now in
        HasCleanDisk (state S.Store conn.new) → OnOk result
        (Ends (MovesContents (IsOwed change.now kept) (λ c. committed c change.now kept))
        (state S.Store conn.old) (state S.Store conn.new)) }
    ensures err { HasCleanDisk (state S.Store conn.new)
        → OnErr result (IsKept (state S.Store conn.old) (state S.Store conn.new)) }
    ensures knows { Knows (state S.Store conn.new) known.new }
    ensures idle { conn.new.in_transaction ≡ false }
    ensures crash { let kept = kept_reply entry.now in
        Survives (state S.Store conn.old) (state S.Store conn.new)
        (IsLeft (MovesContents (IsOwed change.now kept) (λ c. committed c change.now kept))
        (state S.Store conn.old)) }
    ensures undone { LeavesNoTraceIfUndone (state S.Store conn.old) (state S.Store conn.new) result }
{
    image_laws::rows_after_change();
    image_laws::rows_with_reply();
    // The borrow checker has no rule for `?` on a value that contains references.
    match writing_of(conn, known, change) {
        Ok(writing) => {
            known.forget_for(&writing);
            commit(conn, alloc, entry, &writing)?;
            note_counters(known, &writing);
            Ok(())
        }
        Err(error) => Err(Failed::from(error)),
    }
}

/// Stores the release mark `upto` of the client in `entry` and the reply to the release in one
/// transaction, and deletes the client's kept replies up to the mark.
///
/// # Errors
///
/// Returns the error of SQLite if the transaction fails. The contents are then unchanged. An open
/// after a crash finds what it could find before the call, or, unless the failure is `undone`, the
/// contents after the release.
pub(crate) fn release<S: Alter>(
    conn: &mut Connection<S>,
    known: &Known,
    alloc: Global,
    entry: &Entry<'_>,
    upto: u64,
) -> Result<(), Failed<Error>>
    requires most { entry.now.number < 10 ^ 18 }
    requires idle { conn.old.in_transaction ≡ false }
    requires knows { Knows (state S.Store conn.old) known.now }
    ensures ok { let kept = kept_reply entry.now in
        HasCleanDisk (state S.Store conn.new) → OnOk result
        (Ends (MovesContents (IsOwedRelease upto kept) (λ c. released c upto kept))
        (state S.Store conn.old) (state S.Store conn.new)) }
    ensures err { HasCleanDisk (state S.Store conn.new)
        → OnErr result (IsKept (state S.Store conn.old) (state S.Store conn.new)) }
    ensures knows { Knows (state S.Store conn.new) known.now }
    ensures idle { conn.new.in_transaction ≡ false }
    ensures crash { let kept = kept_reply entry.now in
        Survives (state S.Store conn.old) (state S.Store conn.new)
        (IsLeft (MovesContents (IsOwedRelease upto kept) (λ c. released c upto kept))
        (state S.Store conn.old)) }
    ensures undone { LeavesNoTraceIfUndone (state S.Store conn.old) (state S.Store conn.new) result }
{
    image_laws::rows_after_release();
    let client = *entry.client;
    commit(conn, alloc, entry, &Writing::Releases { client, upto })
}
