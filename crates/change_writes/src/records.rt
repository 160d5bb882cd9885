//! Changes the state of a record, in an open transaction. A crash before its commit leaves no trace
//! of the change.
ghost use Rattle.std.specs.Prelude.{◌^◌};
ghost use Rattle.job_facts.specs.declared.facts.SessionState.TheVariants as session;
ghost use Rattle.sql_rows.specs.Writes.{Writes};
ghost use Rattle.table_rows.specs.After.{passed, record_after, rows_after, stopped};
ghost use Rattle.table_rows.specs.declared.writing.Writing.TheVariants as writing;
ghost use Rattle.sql_rows.specs.Many.{WritesInParts};
ghost use Rattle.change_writes.specs.Writable.{HasRoom, IsPlacedBelow};

use crate::counters::{passed, spoiled};
use job_facts::{RecordState, SessionState};
use row_writes::{add_remake, set_record, set_totals};
use sqlite::{Alter, Error, Transaction};
use table_rows::RecordPlace;

/// Writes the new state of a record, with its counts and the counters of its batch.
pub(crate) fn write_record<S: Alter>(
    tx: &mut Transaction<'_, S>,
    place: &RecordPlace,
    stands: RecordState,
) -> Result<usize, Error>
    requires { IsPlacedBelow (2 ^ 63) place.now }
    ensures { let p = place.now in
        Writes S.Store (record_after p stands p.spoiled p.remakes p.totals)
        tx.old.conn tx.new.conn result }
{
    set_record(tx, place, stands)?;
    set_totals(tx, place.batch, &place.totals)
}

/// Changes the state of a record from `was` to `stands`. The numbers of its spoiled sessions and
/// remakes don't change.
pub(crate) fn write_passed<S: Alter>(
    tx: &mut Transaction<'_, S>,
    place: &RecordPlace,
    was: RecordState,
    stands: RecordState,
) -> Result<usize, Error>
    requires { HasRoom place.now }
    ensures { Writes S.Store (passed place.now was stands) tx.old.conn tx.new.conn result }
{
    let totals = passed(was, stands, &place.totals);
    write_record(tx, &RecordPlace { totals, ..*place }, stands)
}

/// Sets a record to failed, because its running session was spoiled.
pub(crate) fn write_spoiled<S: Alter>(
    tx: &mut Transaction<'_, S>,
    place: &RecordPlace,
) -> Result<usize, Error>
    requires { HasRoom place.now }
    ensures { Writes S.Store (stopped place.now session.Spoiled) tx.old.conn tx.new.conn result }
{
    let failed = RecordPlace {
        spoiled: place.spoiled + 1,
        totals: spoiled(&place.totals),
        ..*place
    };
    write_record(tx, &failed, RecordState::Failed)
}

/// Updates a record after a status word that leaves its session in the state `stands`. If the
/// session is still running, nothing changes.
pub(crate) fn write_stop<S: Alter>(
    tx: &mut Transaction<'_, S>,
    place: &RecordPlace,
    stands: SessionState,
) -> Result<usize, Error>
    requires { HasRoom place.now }
    ensures { WritesInParts S.Store (stopped place.now stands) tx.old.conn tx.new.conn result }
{
    match stands {
        SessionState::Running => Ok(0),
        SessionState::Good => write_passed(tx, place, RecordState::Running, RecordState::Good),
        SessionState::Spoiled => write_spoiled(tx, place),
    }
}

/// Remakes a failed record, which is then waiting again.
pub(crate) fn write_remake<S: Alter>(
    tx: &mut Transaction<'_, S>,
    place: &RecordPlace,
) -> Result<usize, Error>
    requires { HasRoom place.now }
    ensures { Writes S.Store (rows_after (writing.Remakes place.now))
        tx.old.conn tx.new.conn result }
{
    let remade = RecordPlace {
        remakes: place.remakes + 1,
        totals: passed(RecordState::Failed, RecordState::Waiting, &place.totals),
        ..*place
    };
    add_remake(tx, remade.batch, remade.place, remade.remakes)?;
    write_record(tx, &remade, RecordState::Waiting)
}
