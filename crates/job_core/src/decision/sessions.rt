//! The decisions on sessions.
ghost use Rattle.std.specs.Prelude.{◌≡◌, ◌≤◌, ◌<◌, ◌+◌, ℕ, Some, IfSome, length, option_map};
ghost use Rattle.std.specs.Prelude.{unwrap_or};
ghost use Rattle.std.specs.Prelude.{[], IfOk};
ghost use Rattle.store_data.specs.Cursor.{IsCursor, cursor_at, segment_at};
ghost use Rattle.store_data.specs.Sequence.{IsPlan, Plan, commands_of, sequence};
ghost use Rattle.job_facts.specs.Facts.{Facts, Session};
ghost use Rattle.job_facts.specs.Handing.{Hands, IsRunning, MayOpen, OpensOrReplies, Runs, Went};
ghost use Rattle.job_facts.specs.Rows.{batch_row_of, segment_row, segment_row_of};
ghost use Rattle.job_facts.specs.Rows.{session_row, session_row_of};
ghost use Rattle.store_data.specs.declared.cursor.Cursor.{Cursor as CursorValue};
ghost use Rattle.job_facts.specs.Sound.{Decides, IsSound, Makes};
ghost use Rattle.job_facts.specs.States.{first_waiting, is_charged, lot_of, plan_for};
ghost use Rattle.job_facts.specs.States.{running_session};
ghost use Rattle.job_facts.specs.Steps.{opened, take_word};
ghost use Rattle.job_facts.specs.Store.{LeavesContents, Reads};
ghost use Rattle.job_facts.specs.declared.change.Change.TheVariants.{AddsWord};
ghost use Rattle.job_facts.specs.declared.request.Request.TheVariants as request;
ghost use Rattle.job_facts.specs.declared.rows.SegmentRow.{SegmentRow as SegmentRowValue};
ghost use Rattle.job_facts.specs.declared.rows.SessionRow.{SessionRow as SessionRowValue};
ghost use Rattle.std.specs.List.{slice_get};

use super::commands::{command, command_from, view};
use super::records::in_batch;
use super::{Decision, refused};
use job_facts::{
    BatchRow, Change, JobStore, Lot, NewSession, NewWord, Refusal, Reply, SegmentRow, SessionRow,
    SessionState, StoreFault,
};
use std::alloc::Global;
use store_data::{Bytes, Class, Cursor, Name, class, laws};

/// Decides an `abort` request.
pub(crate) fn abort<S: JobStore>(
    store: &mut S,
    client: &Name,
    session: u64,
) -> Result<Decision<'static>, StoreFault>
    ensures value { Reads (S.state store.old) (S.state store.new) result
        (λ c answer. Decides c.facts client.now (request.Abort session) answer.0 answer.1) }
    ensures leaves { LeavesContents (S.state store.old) (S.state store.new) result }
{
    let row = store.session(session)?;
    Ok(abort_by(client, session, row))
}

// Decides from the row of the session.
#[tactic(auto, unfolding(job_facts::specs::Steps::step))]
fn abort_by(client: &Name, session: u64, row: Option<SessionRow>) -> Decision<'static>
    ensures { (f : Facts) → IsSound f → row ≡ session_row_of f session
        → Decides f client.now (request.Abort session) result.0 result.1 }
{
    match running(client, session, row) {
        Err(refusal) => refused(refusal),
        Ok(_) => (Reply::Spoiled { session }, Change::Ends { session }),
    }
}

// Returns the row of a session. Returns a refusal if the session doesn't exist, belongs to another
// client, or isn't running.
fn running(client: &Name, session: u64, row: Option<SessionRow>) -> Result<SessionRow, Refusal>
    ensures is { (f : Facts) → row ≡ session_row_of f session
        → IsRunning f client.now session result }
    ensures ranged { IfSome row (λ (x : SessionRowValue). IsCursor x.cursor)
        → IfOk result (λ (x : SessionRowValue). IsCursor x.cursor) }
{
    match row {
        None => Err(Refusal::SessionUnknown),
        Some(row) if row.machine != *client => Err(Refusal::NotYours),
        Some(row) if row.stands != SessionState::Running => Err(Refusal::SessionEnded),
        Some(row) => Ok(row),
    }
}

/// Decides a `reset` request, which ends the running session of the client.
pub(crate) fn reset<S: JobStore>(
    store: &mut S,
    client: &Name,
) -> Result<Decision<'static>, StoreFault>
    ensures value { Reads (S.state store.old) (S.state store.new) result
        (λ c answer. Decides c.facts client.now request.Reset answer.0 answer.1) }
    ensures leaves { LeavesContents (S.state store.old) (S.state store.new) result }
{
    let session = store.running_session(client)?;
    Ok(reset_by(client, session))
}

// Decides from the number of the running session.
#[tactic(auto, unfolding(job_facts::specs::Steps::step))]
fn reset_by(client: &Name, session: Option<u64>) -> Decision<'static>
    ensures { (f : Facts) → IsSound f → session ≡ running_session f client.now
        → Decides f client.now request.Reset result.0 result.1 }
{
    match session {
        None => (Reply::Reset { session: 0 }, Change::Nothing),
        Some(session) => (Reply::Reset { session }, Change::Ends { session }),
    }
}

#[tactic(auto, unfolding(job_facts::specs::Steps::step))]
/// Decides an `open` request.
pub(crate) fn open<S: JobStore>(
    alloc: Global,
    store: &mut S,
    client: &Name,
    batch: &Name,
    blank: u64,
) -> Result<Decision<'static>, StoreFault>
    ensures value { Reads (S.state store.old) (S.state store.new) result
        (λ c answer. Decides c.facts client.now (request.Open batch.now blank) answer.0 answer.1) }
    ensures leaves { LeavesContents (S.state store.old) (S.state store.new) result }
{
    let row = store.batch(batch)?;
    let busy = store.running_session(client)?;
    let lot = store.lot_of(blank)?;
    let charged = store.is_charged(blank)?;
    let waiting = store.first_waiting(batch)?;
    let sessions = store.session_count()?;
    let facts = OpenFacts {
        row,
        busy,
        lot,
        charged,
        waiting,
    };
    match to_open(client, batch, blank, facts) {
        Err(reply) => Ok((reply, Change::Nothing)),
        Ok((rec, lot)) => {
            let opens = SessionToOpen {
                number: sessions + 1,
                batch: *batch,
                rec,
                blank,
                lot,
            };
            opening(alloc, store, client, &opens)
        }
    }
}

// The facts that decide an `open` request: the row of the batch, the running session of the client,
// the lot of the blank, whether the blank is charged, and the first waiting record.
#[derive(Clone, Copy)]
struct OpenFacts {
    row: Option<BatchRow>,
    busy: Option<u64>,
    lot: Option<Lot>,
    charged: bool,
    waiting: Option<Name>,
}

// A session to open: its number, its record, and its blank with the lot of the blank.
#[derive(Clone, Copy)]
struct SessionToOpen {
    number: u64,
    batch: Name,
    rec: Name,
    blank: u64,
    lot: Name,
}

// Returns the record of the new session and the lot of its blank, or the reply if no session can be
// opened.
fn to_open(client: &Name, batch: &Name, blank: u64, facts: OpenFacts) -> Result<(Name, Name), Reply>
    ensures { (f : Facts) → facts.row ≡ batch_row_of f batch.now
        → facts.busy ≡ running_session f client.now → facts.lot ≡ lot_of f.lots blank
        → facts.charged ≡ is_charged f blank → facts.waiting ≡ first_waiting f batch.now
        → OpensOrReplies f client.now batch.now blank result }
{
    let OpenFacts {
        row,
        busy,
        lot,
        charged,
        waiting,
    } = facts;
    let product = match in_batch(row) {
        Err(refusal) => return Err(Reply::Refused { refusal }),
        Ok(row) => row.product,
    };
    if let Some(session) = busy {
        return Err(Reply::Busy { session });
    }
    let refusal = match lot {
        None => Refusal::BlankUnknown,
        Some(lot) if lot.product != product => Refusal::BlankOfOtherProduct,
        Some(_) if charged => Refusal::BlankUsed,
        Some(lot) => match waiting {
            None => Refusal::NothingWaiting,
            Some(rec) => return Ok((rec, lot.name)),
        },
    };
    Err(Reply::Refused { refusal })
}

// Opens the session `opens`, and reads its first command.
fn opening<S: JobStore>(
    alloc: Global,
    store: &mut S,
    client: &Name,
    opens: &SessionToOpen,
) -> Result<Decision<'static>, StoreFault>
    ensures value { Reads (S.state store.old) (S.state store.new) result
        (λ c answer.
        MayOpen c.facts client.now opens.now.batch opens.now.blank opens.now.rec opens.now.lot
        → opens.now.number ≡ length c.facts.sessions + 1
        → Makes c.facts
        (opened c.facts client.now opens.now.batch opens.now.blank opens.now.rec)
        answer.0 answer.1) }
    ensures leaves { LeavesContents (S.state store.old) (S.state store.new) result }
{
    let command = command(alloc, store, &opens.batch, &opens.rec, &Cursor::start())?;
    Ok(opened(alloc, client, opens, command))
}

// Returns the reply with the first command, and the change that opens the session.
fn opened(
    alloc: Global,
    client: &Name,
    opens: &SessionToOpen,
    command: Option<Bytes>,
) -> Decision<'static>
    ensures { (f : Facts) (plan : Plan) → IsSound f
        → MayOpen f client.now opens.now.batch opens.now.blank opens.now.rec opens.now.lot
        → opens.now.number ≡ length f.sessions + 1
        → plan_for f opens.now.batch opens.now.rec ≡ Some plan
        → command ≡ slice_get (sequence plan) 0
        → Makes f (opened f client.now opens.now.batch opens.now.blank opens.now.rec)
        result.0 result.1 }
{
    laws::is_a_name(client);
    let command = bytes_or_none(alloc, command);
    let reply = Reply::Opened {
        batch: opens.batch,
        blank: opens.blank,
        command,
        rec: opens.rec,
        session: opens.number,
    };
    let session = NewSession {
        number: opens.number,
        machine: *client,
        blank: opens.blank,
        lot: opens.lot,
    };
    let change = Change::Opens {
        session,
        batch: opens.batch,
        rec: opens.rec,
    };
    (reply, change)
}

fn bytes_or_none(alloc: Global, command: Option<Bytes>) -> Bytes
    ensures { result ≡ unwrap_or command [] }
{
    match command {
        None => Bytes::from_vec(Vec::new(alloc)),
        Some(command) => command,
    }
}

/// A status word: the answer of the card in `session` to the command with index `index`.
#[derive(Clone, Copy)]
pub(crate) struct StatusWord {
    pub(crate) session: u64,
    pub(crate) index: u32,
    pub(crate) sw: u16,
}

#[tactic(auto, unfolding(job_facts::specs::Steps::step))]
/// Decides an `answer` request.
pub(crate) fn answer<S: JobStore>(
    alloc: Global,
    store: &mut S,
    client: &Name,
    word: StatusWord,
) -> Result<Decision<'static>, StoreFault>
    ensures value { Reads (S.state store.old) (S.state store.new) result
        (λ c answer. Decides c.facts client.now (request.Answer word.session word.index word.sw)
        answer.0 answer.1) }
    ensures leaves { LeavesContents (S.state store.old) (S.state store.new) result }
{
    let row = match running(client, word.session, store.session(word.session)?) {
        Err(refusal) => return Ok(refused(refusal)),
        Ok(row) => row,
    };
    if row.words != u64::from(word.index) {
        return Ok(refused(Refusal::OutOfTurn));
    }
    taking_word(alloc, store, &row, word)
}

// Adds to a running session the status word for the command sent last.
fn taking_word<S: JobStore>(
    alloc: Global,
    store: &mut S,
    row: &SessionRow,
    word: StatusWord,
) -> Result<Decision<'static>, StoreFault>
    requires { IsCursor row.now.cursor }
    ensures value { Reads (S.state store.old) (S.state store.new) result
        (λ c answer. (x : Session) (plan : Plan) → Runs c.facts word.session x plan
        → row.now ≡ session_row c.facts x → word.index ≡ length x.words
        → Makes c.facts (take_word c.facts word.session word.index word.sw x)
        answer.0 answer.1) }
    ensures leaves { LeavesContents (S.state store.old) (S.state store.new) result }
{
    let segment = store.segment(&row.batch, &row.rec, row.cursor.app, row.cursor.segment)?;
    let next = after_word(&row.cursor, &segment, word.sw);
    let command = next_command(alloc, store, row, &segment, &next)?;
    Ok(took_word(row, word, next, command))
}

// Returns the command at the cursor `next`, or `None` if the session ends. The segment of the
// previous command has already been read, and is used if the next command is in it.
fn next_command<S: JobStore>(
    alloc: Global,
    store: &mut S,
    row: &SessionRow,
    segment: &Option<SegmentRow>,
    next: &Option<Cursor>,
) -> Result<Option<Bytes>, StoreFault>
    requires { IfSome segment.now (λ (x : SegmentRowValue). x.low ≤ 31) }
    ensures value { Reads (S.state store.old) (S.state store.new) result
        (λ c answer. (plan : Plan) (k : ℕ) → plan_for c.facts row.now.batch row.now.rec ≡ Some plan
        → IsPlan plan
        → segment.now ≡ segment_row_of c.facts row.now.batch row.now.rec row.now.cursor.app
        row.now.cursor.segment
        → IfSome next.now (λ (cursor : CursorValue). cursor_at plan (k + 1) ≡ Some cursor)
        → Hands plan k next.now answer) }
    ensures leaves { LeavesContents (S.state store.old) (S.state store.new) result }
{
    match next {
        None => Ok(None),
        Some(next) if next.app == row.cursor.app && next.segment == row.cursor.segment => {
            Ok(command_from(alloc, segment, next)?)
        }
        Some(next) => command(alloc, store, &row.batch, &row.rec, next),
    }
}

// Returns the cursor after the status word `sw` for the command at `cursor`, or `None` if `sw`
// spoils the session.
fn after_word(cursor: &Cursor, segment: &Option<SegmentRow>, sw: u16) -> Option<Cursor>
    requires { IsCursor cursor.now }
    ensures { (plan : Plan) (k : ℕ) → IsPlan plan → cursor_at plan k ≡ Some cursor.now
        → k < length (commands_of plan)
        → segment.now ≡ option_map (segment_row plan)
        (segment_at plan cursor.now.app cursor.now.segment)
        → Went plan k sw result }
{
    let Some(segment) = segment else {
        return None;
    };
    let view = view(segment);
    let tolerated = segment.tol && cursor.at_end(&view, segment.max);
    match class(sw, tolerated) {
        Class::Stop => None,
        Class::Go => {
            let mut next = *cursor;
            next.step_from(&view, segment.max);
            Some(next)
        }
    }
}

// Adds a status word. The session is then spoiled, continues with its next command, or is good.
fn took_word(
    row: &SessionRow,
    word: StatusWord,
    next: Option<Cursor>,
    command: Option<Bytes>,
) -> Decision<'static>
    ensures { (f : Facts) (x : Session) (plan : Plan) → IsSound f → Runs f word.session x plan
        → row.now ≡ session_row f x → word.index ≡ length x.words
        → Went plan word.index word.sw next → Hands plan word.index next command
        → Makes f (take_word f word.session word.index word.sw x) result.0 result.1 }
{
    let StatusWord { session, index, sw } = word;
    let word = NewWord {
        session,
        index,
        sw,
        cursor: next.unwrap_or(row.cursor),
    };
    match (next, command) {
        (None, _) => adds_word(row, word, SessionState::Spoiled, Reply::Spoiled { session }),
        (Some(_), None) => adds_word(row, word, SessionState::Good, Reply::Good { session }),
        (Some(_), Some(command)) => {
            let reply = Reply::Next {
                command,
                index: u64::from(index) + 1,
                session,
            };
            adds_word(row, word, SessionState::Running, reply)
        }
    }
}

// Returns `reply`, and the change that adds the status word `word` to the session of `row`, whose
// state is then `stands`.
fn adds_word(
    row: &SessionRow,
    word: NewWord,
    stands: SessionState,
    reply: Reply,
) -> Decision<'static>
    ensures { result ≡ (reply, AddsWord word row.now.batch row.now.rec stands) }
{
    let change = Change::AddsWord {
        word,
        batch: row.batch,
        rec: row.rec,
        stands,
    };
    (reply, change)
}
