//! Changes rows, in an open transaction. A crash before its commit leaves no trace of the change.
ghost use Rattle.std.specs.Prelude.{◌≡◌, ◌<◌, ◌^◌};
ghost use Rattle.sql_rows.specs.Encoding.{record_code};
ghost use Rattle.sql_rows.specs.Writes.{Writes, WritesWithCause};
ghost use Rattle.row_writes.specs.Raw.{with_raw_set};
ghost use Rattle.table_rows.specs.Tables.{with_closed_set, with_end_set, with_lot_set};
ghost use Rattle.table_rows.specs.Tables.{with_record_set, with_totals_set};

use job_facts::{BatchTotals, RecordState};
use sql_base::int;
use sqlite::types::ValueRef;
use sqlite::{Alter, Error, Transaction};
use store_data::Name;
use table_rows::RecordPlace;

/// Returns the number that is stored for the record state `stands`.
pub fn record_code(stands: RecordState) -> u64
    ensures { result ≡ record_code stands }
{
    match stands {
        RecordState::Waiting => 0,
        RecordState::Running => 1,
        RecordState::Failed => 2,
        RecordState::Withdrawn => 3,
        RecordState::Good => 4,
    }
}

/// Sets the number of discarded blanks of the lot `name`.
pub fn set_lot<S: Alter>(
    tx: &mut Transaction<'_, S>,
    name: &Name,
    discarded: u64,
) -> Result<usize, Error>
    requires { discarded < 2 ^ 63 }
    ensures { Writes S.Store (with_lot_set name.now discarded) tx.old.conn tx.new.conn result }
{
    tx.execute(
        "UPDATE lot SET discarded = ?2 WHERE name = ?1",
        &[ValueRef::Text(name.bytes()), int(discarded)],
    )
}

/// Sets the counters of the batch with id `batch`.
pub fn set_totals<S: Alter>(
    tx: &mut Transaction<'_, S>,
    batch: u64,
    totals: &BatchTotals,
) -> Result<usize, Error>
    requires batch { batch < 2 ^ 63 }
    requires waiting { totals.now.waiting < 2 ^ 63 }
    requires running { totals.now.running < 2 ^ 63 }
    requires failed { totals.now.failed < 2 ^ 63 }
    requires withdrawn { totals.now.withdrawn < 2 ^ 63 }
    requires good { totals.now.good < 2 ^ 63 }
    requires sessions { totals.now.sessions < 2 ^ 63 }
    requires spoiled { totals.now.spoiled < 2 ^ 63 }
    ensures { Writes S.Store (with_totals_set batch totals.now) tx.old.conn tx.new.conn result }
{
    tx.execute(
        "UPDATE batch SET waiting = ?2, running = ?3, failed = ?4, withdrawn = ?5, good = ?6, \
        sessions = ?7, spoiled = ?8 WHERE id = ?1",
        &[
            int(batch),
            int(totals.waiting),
            int(totals.running),
            int(totals.failed),
            int(totals.withdrawn),
            int(totals.good),
            int(totals.sessions),
            int(totals.spoiled),
        ],
    )
}

/// Sets the bytes of the batch with id `batch`.
pub fn set_raw<S: Alter>(
    tx: &mut Transaction<'_, S>,
    batch: u64,
    raw: &[u8],
) -> Result<usize, Error>
    requires { batch < 2 ^ 63 }
    ensures { WritesWithCause S.Store (with_raw_set batch raw.now) tx.old.conn tx.new.conn result }
{
    tx.execute(
        "UPDATE batch SET raw = ?2 WHERE id = ?1",
        &[int(batch), ValueRef::Blob(raw)],
    )
}

/// Closes the batch `name`.
pub fn set_closed<S: Alter>(tx: &mut Transaction<'_, S>, name: &Name) -> Result<usize, Error>
    ensures { Writes S.Store (with_closed_set name.now) tx.old.conn tx.new.conn result }
{
    tx.execute(
        "UPDATE batch SET closed = 1 WHERE name = ?1",
        &[ValueRef::Text(name.bytes())],
    )
}

/// Sets the state of the record at `place`, and the numbers of its spoiled sessions and remakes.
pub fn set_record<S: Alter>(
    tx: &mut Transaction<'_, S>,
    place: &RecordPlace,
    stands: RecordState,
) -> Result<usize, Error>
    requires batch { place.now.batch < 2 ^ 63 }
    requires place { place.now.place < 2 ^ 63 }
    requires spoiled { place.now.spoiled < 2 ^ 63 }
    requires remakes { place.now.remakes < 2 ^ 63 }
    ensures { let p = place.now in
        Writes S.Store (with_record_set p.batch p.place stands p.spoiled p.remakes)
        tx.old.conn tx.new.conn result }
{
    tx.execute(
        "UPDATE record SET state = ?3, spoiled = ?4, remakes = ?5 WHERE batch = ?1 AND place = ?2",
        &[
            int(place.batch),
            int(place.place),
            int(record_code(stands)),
            int(place.spoiled),
            int(place.remakes),
        ],
    )
}

/// Ends a session that was aborted or reset: the session is spoiled.
pub fn set_end<S: Alter>(tx: &mut Transaction<'_, S>, session: u64) -> Result<usize, Error>
    requires { session < 2 ^ 63 }
    ensures { Writes S.Store (with_end_set session) tx.old.conn tx.new.conn result }
{
    tx.execute(
        "UPDATE session SET state = 2, ended = 1 WHERE id = ?1",
        &[int(session)],
    )
}
