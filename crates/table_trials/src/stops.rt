//! Tests of a run over files that fail after some number of calls, which simulates a crash at each
//! call of either file.
//!
//! The arrival during which the files stop gets the fault `Device`, as do all later arrivals. The
//! files that remain are opened again, as they are and after a simulated power failure. They
//! contain the rows from before or after that arrival. If there was no power failure, the store is
//! then opened, and the whole run is repeated.
use crate::disks::{Ended, Left, Stop, close, nothing, open};
use crate::exchanges::{Exchange, arrival, check_reply};
use crate::stories::{MADE_AGAIN, NUMBER_RELEASED, RELEASE, SET_UP};
use job_facts::{JobStore, StoreFault};
use reply_store::handle;
use schema::SqlStore;
use sqlite::{Alter, Connection, Error};
use std::alloc::{AllocError, Global};
use std::process::Abort;
use std::test::Fail;

// A number of calls of a file that no run reaches.
pub(crate) const MANY_CALLS: u64 = 10_000;

pub(crate) const NO_STOP: Stop = Stop {
    log: MANY_CALLS,
    db: MANY_CALLS,
};

// The exchanges of a run, and the rows after each of its steps. At first there are no tables. The
// first step creates them, and every other step is an exchange.
#[derive(Drop)]
struct Run {
    exchanges: Vec<Exchange>,
    rows: Vec<String>,
}

// The number of steps that were completed before the files stopped, and the files that remain.
// `rows` has the rows after the last exchange if all exchanges were completed.
#[derive(Drop)]
struct Stopped {
    steps: usize,
    rows: String,
    ended: Ended,
}

// Returns the exchanges of the set-up, a release of their request numbers, and a spoiled card that
// is made again.
fn exchanges(alloc: Global) -> Result<Vec<Exchange>, AllocError> {
    let mut all = Vec::new(alloc);
    for exchanges in [SET_UP.as_slice(), &[RELEASE], MADE_AGAIN.exchanges] {
        all.extend_from_slice(exchanges)?;
    }
    Ok(all)
}

// Sends `exchanges` to a store, and returns the number of exchanges that got their replies. Every
// later exchange gets the fault `Device`.
fn replies_before_stop<S: JobStore>(
    rt: &impl Abort,
    alloc: Global,
    store: &mut S,
    exchanges: &[Exchange],
) -> Result<usize, Fail> {
    let mut count = 0usize;
    for (place, exchange) in exchanges.iter().enumerate() {
        match handle(alloc, store, &arrival(alloc, exchange)?) {
            Ok(kept) => {
                assert_eq!(rt; count, place);
                check_reply(rt, exchange, &kept);
                count = count.saturating_add(1);
            }
            Err(fault) => assert_eq!(rt; fault, StoreFault::Device, "at {place}"),
        }
    }
    Ok(count)
}

// Sends all exchanges of `run` again to a store that has completed `steps` of its steps. Every
// exchange gets the same reply as in a run without a stop, unless its request number is released.
fn check_replies_again<S: JobStore>(
    rt: &impl Abort,
    alloc: Global,
    store: &mut S,
    run: &Run,
    steps: usize,
) -> Result<(), Fail> {
    let is_released = steps > SET_UP.len() + 1;
    for (place, exchange) in run.exchanges.iter().enumerate() {
        let mut wanted = *exchange;
        if is_released && place < SET_UP.len() {
            wanted = Exchange(wanted.0, wanted.1, 409, NUMBER_RELEASED);
        }
        let kept = handle(alloc, store, &arrival(alloc, exchange)?)?;
        check_reply(rt, &wanted, &kept);
    }
    Ok(())
}

// Returns the rows of all tables of a database.
pub(crate) fn rows_of<S: Alter>(alloc: Global, conn: &mut Connection<S>) -> Result<String, Error> {
    let mut text = String::new(alloc);
    for table in conn.query_all("SELECT name FROM sqlite_master WHERE type = 'table'", &[])? {
        let name: String = table.get(0)?;
        put_rows(alloc, conn, name.as_str(), &mut text)?;
    }
    Ok(text)
}

pub(crate) fn put_rows<S: Alter>(
    alloc: Global,
    conn: &mut Connection<S>,
    table: &str,
    text: &mut String,
) -> Result<(), Error> {
    let query = format!(in alloc; "SELECT * FROM {table}")?;
    for row in conn.query_all(query.as_str(), &[])? {
        text.push_str(format!(in alloc; "{table} {row:?}\n")?.as_str())?;
    }
    Ok(())
}

// Creates a store without facts in an empty database.
pub(crate) fn created<S: Alter>(
    alloc: Global,
    conn: Connection<S>,
) -> Result<SqlStore<S>, Connection<S>> {
    if !conn.is_autocommit() {
        return Err(conn);
    }
    match SqlStore::create(alloc, conn) {
        Ok(store) => Ok(store),
        Err((conn, _)) => Err(conn),
    }
}

// Opens the store of a database that has the tables of a schema version.
pub(crate) fn adopted<S: Alter + Drop>(
    alloc: Global,
    conn: Connection<S>,
) -> Result<SqlStore<S>, Fail> {
    if !conn.is_autocommit() {
        return Err(Fail::new("a transaction is open"));
    }
    match SqlStore::adopt(alloc, conn) {
        Ok(store) => Ok(store),
        Err((_, fault)) => Err(Fail::from(fault)),
    }
}

// Performs the steps of a run on an empty database. Returns the number of completed steps, and the
// rows after them if all were completed.
fn steps_over<S: Alter + Drop>(
    rt: &impl Abort,
    alloc: Global,
    exchanges: &[Exchange],
    conn: Connection<S>,
) -> Result<(usize, String, Connection<S>), Fail> {
    let mut rows = String::new(alloc);
    let mut store = match created(alloc, conn) {
        Ok(store) => store,
        Err(conn) => return Ok((0, rows, conn)),
    };
    let answered = replies_before_stop(rt, alloc, &mut store, exchanges)?;
    let mut conn = store.close();
    if answered == exchanges.len() {
        rows = rows_of(alloc, &mut conn)?;
    }
    Ok((answered.saturating_add(1), rows, conn))
}

// Performs the steps of a run on new files that stop at `stop`.
fn steps_before_stop(
    rt: &impl Abort,
    alloc: Global,
    exchanges: &[Exchange],
    stop: Stop,
) -> Result<Stopped, Fail> {
    match open(alloc, &nothing(alloc), stop) {
        Ok(conn) => {
            let (steps, rows, conn) = steps_over(rt, alloc, exchanges, conn)?;
            let ended = close(alloc, conn)?;
            Ok(Stopped { steps, rows, ended })
        }
        Err(ended) => Ok(Stopped {
            steps: 0,
            rows: String::new(alloc),
            ended: ended?,
        }),
    }
}

// Returns the number of steps after which a run has the rows of `conn`. It must be `answered`, the
// number of completed steps, or higher by one.
fn steps_of<S: Alter>(
    rt: &impl Abort,
    alloc: Global,
    run: &Run,
    answered: usize,
    conn: &mut Connection<S>,
) -> Result<usize, Fail> {
    let rows = rows_of(alloc, conn)?;
    let near = run.rows.get(answered..).unwrap_or(&[]);
    let behind = near.iter().take(2).position(|its| *its == rows);
    assert!(rt; behind.is_some(), "behind {answered} steps: {rows}");
    Ok(answered.saturating_add(behind.unwrap_or(0)))
}

// Sends all exchanges of `run` again to a store that has completed `steps` of its steps. Afterwards
// the store has the same rows as after a run without a stop.
fn check_again<S: Alter + Drop>(
    rt: &impl Abort,
    alloc: Global,
    run: &Run,
    steps: usize,
    mut store: SqlStore<S>,
) -> Result<(), Fail> {
    check_replies_again(rt, alloc, &mut store, run, steps)?;
    let mut conn = store.close();
    let last = run.rows.len().saturating_sub(1);
    assert_eq!(rt; steps_of(rt, alloc, run, last, &mut conn)?, last);
    Ok(())
}

// A run that met a stop after `answered` completed steps. It is then repeated if `sends_again` is
// true.
#[derive(Clone, Copy)]
struct MetStop<'a> {
    run: &'a Run,
    answered: usize,
    sends_again: bool,
}

// Checks that a database has the rows after the completed steps, or after one more step. If the run
// is repeated, it then creates the tables in an empty database, or opens the store of any other
// database.
fn check_over<S: Alter + Drop>(
    rt: &impl Abort,
    alloc: Global,
    met: &MetStop<'_>,
    mut conn: Connection<S>,
) -> Result<(), Fail> {
    let steps = steps_of(rt, alloc, met.run, met.answered, &mut conn)?;
    if !met.sends_again {
        return Ok(());
    }
    if steps > 0 {
        return check_again(rt, alloc, met.run, steps, adopted(alloc, conn)?);
    }
    match created(alloc, conn) {
        Ok(store) => check_again(rt, alloc, met.run, steps, store),
        Err(_) => Err(Fail::new("no tables are made")),
    }
}

// Opens the files that remain, and checks their rows.
fn check_left(rt: &impl Abort, alloc: Global, met: &MetStop<'_>, left: &Left) -> Result<(), Fail> {
    match open(alloc, left, NO_STOP) {
        Ok(conn) => check_over(rt, alloc, met, conn),
        Err(_) => Err(Fail::new("what is left isn't opened")),
    }
}

// Returns the exchanges of a run without a stop, with the rows after each of its steps.
fn whole_run(rt: &impl Abort, alloc: Global) -> Result<Run, Fail> {
    let exchanges = exchanges(alloc)?;
    let mut rows = Vec::new(alloc);
    rows.push(String::new(alloc))?;
    for count in 0..=exchanges.len() {
        let some = exchanges.get(..count).unwrap_or(&[]);
        let made = steps_before_stop(rt, alloc, some, NO_STOP)?;
        assert!(rt; made.steps > count && made.ended.is_closed);
        rows.push(made.rows)?;
    }
    Ok(Run { exchanges, rows })
}

// Performs the steps of `run` on files that stop at `stop`, and checks the files that remain. If
// there was no power failure, the whole run is then repeated. Returns `true` if the run met the
// stop.
fn has_met(rt: &impl Abort, alloc: Global, run: &Run, stop: Stop) -> Result<bool, Fail> {
    let exchanges = run.exchanges.as_slice();
    let made = steps_before_stop(rt, alloc, exchanges, stop)?;
    for (place, left) in made.ended.lefts.iter().enumerate() {
        let met = MetStop {
            run,
            answered: made.steps,
            sends_again: place == 0,
        };
        check_left(rt, alloc, &met, left)?;
    }
    Ok(made.steps <= exchanges.len() || !made.ended.is_closed)
}

// Checks a stop at each call of the WAL, or of the database file if `is_log` is false, until a run
// doesn't meet its stop.
fn check_stops(rt: &impl Abort, alloc: Global, is_log: bool) -> Result<(), Fail> {
    let run = whole_run(rt, alloc)?;
    for calls in 0..MANY_CALLS {
        let (log, db) = if is_log {
            (calls, MANY_CALLS)
        } else {
            (MANY_CALLS, calls)
        };
        if !has_met(rt, alloc, &run, Stop { log, db })? {
            assert!(rt; calls > 0);
            return Ok(());
        }
    }
    Err(Fail::new("each run met a stop"))
}

#[test]
fn a_stop_at_each_call_of_the_log_leaves_all_of_an_arrival_or_nothing(
    rt: HostRuntime,
) -> Result<(), Fail> {
    check_stops(&rt, rt.alloc(), true)
}

#[test]
fn a_stop_at_each_call_of_the_database_leaves_all_of_an_arrival_or_nothing(
    rt: HostRuntime,
) -> Result<(), Fail> {
    check_stops(&rt, rt.alloc(), false)
}
