//! Writes the event lines of a connection.
ghost use Rattle.std.specs.Prelude.{◌≡◌};
ghost use Rattle.event_lines.specs.Notes.{NotesAll};
ghost use Rattle.server_run.specs.ConnectionLines.{fails_after, lines_at, own_lines};
ghost use Rattle.server_run.specs.ConnectionLines.{recovery_lines};

use crate::ended::Ended;
use crate::import::note_import;
use crate::line::connection_line;
use crate::observation::Observation;
use event_lines::{EventLine, EventLog, Level};
use std::alloc::Global;
use std::io::Write;

/// Writes the event lines of a connection that has ended, as far as the level of `events` includes
/// them. `is_failing` tells whether the store was failing before the connection. Returns `true` if
/// it is failing after it.
pub(crate) fn note_connection<E: Write + Drop>(
    alloc: Global,
    events: &mut EventLog<E>,
    is_failing: bool,
    ended: &Ended,
) -> bool
    ensures level { events.new.level ≡ events.old.level }
    ensures noted { NotesAll events.old.level (E.contents events.old.writer)
        (E.contents events.new.writer)
        (lines_at events.old.level is_failing ended.now.observation) }
    ensures fails { result ≡ fails_after is_failing ended.now.observation }
{
    note_observed(alloc, events, is_failing, ended.observation())
}

// Writes the event lines of a connection.
fn note_observed<E: Write + Drop>(
    alloc: Global,
    events: &mut EventLog<E>,
    is_failing: bool,
    observation: &Observation,
) -> bool
    ensures level { events.new.level ≡ events.old.level }
    ensures noted { NotesAll events.old.level (E.contents events.old.writer)
        (E.contents events.new.writer) (lines_at events.old.level is_failing observation.now) }
    ensures fails { result ≡ fails_after is_failing observation.now }
{
    note_recovery(alloc, events, is_failing, observation);
    note_own(alloc, events, observation);
    note_import(alloc, events, observation);
    observation.fails_after(is_failing)
}

// Writes `recovered` if the store works again.
fn note_recovery<E: Write + Drop>(
    alloc: Global,
    events: &mut EventLog<E>,
    is_failing: bool,
    observation: &Observation,
)
    ensures level { events.new.level ≡ events.old.level }
    ensures noted { NotesAll events.old.level (E.contents events.old.writer)
        (E.contents events.new.writer)
        (recovery_lines events.old.level is_failing observation.now) }
{
    if events.is_on() && is_failing && observation.was_served() {
        events.note(EventLine::new(alloc, "recovered"));
    }
}

// Writes the connection's own line if the level includes it.
fn note_own<E: Write + Drop>(alloc: Global, events: &mut EventLog<E>, observation: &Observation)
    ensures level { events.new.level ≡ events.old.level }
    ensures noted { NotesAll events.old.level (E.contents events.old.writer)
        (E.contents events.new.writer) (own_lines events.old.level observation.now) }
{
    let is_noted = match events.level {
        Level::Off => false,
        Level::Usual => !observation.is_accepted(),
        Level::All => true,
    };
    if is_noted {
        events.note(connection_line(alloc, observation));
    }
}
