//! Writes the event lines at the start of a server: the upgrade of an older database file, and the
//! size of its contents.
ghost use Rattle.std.specs.Prelude.{◌≡◌, ◌∷◌, ◌++◌, [], IfOk};
ghost use Rattle.job_facts.specs.Store.{Stays};
ghost use Rattle.event_lines.specs.Notes.{NotesAll};
ghost use Rattle.event_lines.specs.Views.{text_of};
ghost use Rattle.server_run.specs.Openings.{AreHoldings, count_pair, opening_line, opening_lines};
ghost use Rattle.server_run.specs.Openings.{upgrade_line, upgrade_lines};
ghost use Rattle.server_run.specs.declared.opening.Holdings.{Holdings as HoldingsValue};

use event_lines::{EventLine, EventLog};
use job_facts::ServerStore;
use std::alloc::{AllocError, Global};
use std::io::Write;

/// The database file of a server, and its state when it was opened.
#[derive(Clone, Copy, Debug)]
pub struct Opened<'a> {
    /// The path of the file.
    pub path: &'a [u8],
    /// `true` if the database was created.
    pub is_new: bool,
    /// `true` if the file had a WAL with frames, which were read.
    pub has_log: bool,
    /// The number of the older schema version from which the database was upgraded, if it was.
    pub older: Option<u8>,
}

/// The size of a store's contents. A number is `None` if it couldn't be read.
#[derive(Clone, Copy, Debug)]
pub struct Holdings {
    pub batches: Option<u64>,
    pub sessions: Option<u64>,
    pub replies: Option<u64>,
}

/// Writes the event lines of the database file. If event lines are off, nothing is read for them.
pub(crate) fn note_opening<S: ServerStore, E: Write + Drop>(
    alloc: Global,
    store: &mut S,
    events: &mut EventLog<E>,
    opened: &Opened<'_>,
)
    ensures stays { Stays (S.state store.old) (S.state store.new) }
    ensures level { events.new.level ≡ events.old.level }
    ensures noted { (h : HoldingsValue) × AreHoldings (S.state store.old) (S.state store.new) h
        × NotesAll events.old.level (E.contents events.old.writer) (E.contents events.new.writer)
        (opening_lines events.old.level opened.now h) }
{
    if !events.is_on() {
        return;
    }
    note_upgrade(alloc, events, opened);
    note_opened(alloc, store, events, opened);
}

// Writes the event line of the upgrade, if there was one.
fn note_upgrade<E: Write + Drop>(alloc: Global, events: &mut EventLog<E>, opened: &Opened<'_>)
    ensures level { events.new.level ≡ events.old.level }
    ensures noted { NotesAll events.old.level (E.contents events.old.writer)
        (E.contents events.new.writer) (upgrade_lines opened.now.path.now opened.now.older) }
{
    match opened.older {
        Some(version) => events.note(upgrade_line(alloc, opened.path, version)),
        None => (),
    }
}

fn upgrade_line(alloc: Global, path: &[u8], version: u8) -> Result<EventLine, AllocError>
    ensures { IfOk result (λ line. text_of line ≡ upgrade_line path.now version) }
{
    EventLine::new(alloc, "upgraded")?
        .quoted("db", path)?
        .number("version", u64::from(version))
}

// Writes the event line with the size of the contents.
fn note_opened<S: ServerStore, E: Write + Drop>(
    alloc: Global,
    store: &mut S,
    events: &mut EventLog<E>,
    opened: &Opened<'_>,
)
    ensures stays { Stays (S.state store.old) (S.state store.new) }
    ensures level { events.new.level ≡ events.old.level }
    ensures noted { (h : HoldingsValue) × AreHoldings (S.state store.old) (S.state store.new) h
        × NotesAll events.old.level (E.contents events.old.writer) (E.contents events.new.writer)
        (opening_line opened.now h ∷ []) }
{
    let held = if opened.is_new {
        NOTHING
    } else {
        read_holdings(store)
    };
    events.note(opening_line(alloc, opened, &held));
}

const NOTHING: Holdings = Holdings {
    batches: None,
    sessions: None,
    replies: None,
};

// Returns the size of the store's contents, as far as it can be read.
fn read_holdings<S: ServerStore>(store: &mut S) -> Holdings
    ensures stays { Stays (S.state store.old) (S.state store.new) }
    ensures value { AreHoldings (S.state store.old) (S.state store.new) result }
{
    Holdings {
        batches: store.batch_count().ok(),
        sessions: store.session_count().ok(),
        replies: store.reply_count().ok(),
    }
}

fn opening_line(
    alloc: Global,
    opened: &Opened<'_>,
    held: &Holdings,
) -> Result<EventLine, AllocError>
    ensures { IfOk result (λ line. text_of line ≡ opening_line opened.now held.now) }
{
    if opened.is_new {
        return EventLine::new(alloc, "made")?.quoted("db", opened.path);
    }
    let log = if opened.has_log { "taken" } else { "none" };
    let line = EventLine::new(alloc, "opened")?
        .quoted("db", opened.path)?
        .word("log", log)?;
    let line = with_count(line, "batches", held.batches)?;
    let line = with_count(line, "sessions", held.sessions)?;
    with_count(line, "replies", held.replies)
}

// Adds a number, if it could be read.
fn with_count(line: EventLine, key: &str, count: Option<u64>) -> Result<EventLine, AllocError>
    ensures { IfOk result (λ more. text_of more ≡ text_of line ++ count_pair key.now count) }
{
    match count {
        Some(number) => line.number(key, number),
        None => Ok(line),
    }
}
