//! Tests that files of earlier schema versions are opened, even if the upgrade crashes at some call
//! of a file or an allocation fails. Files of version 3 aren't changed.
//!
//! An opened database has the rows and the schema that the same exchanges produce in version 3. The
//! tests over tables in memory have the same result if any single allocation fails.
use crate::bodies::{accepted, made, product};
use crate::disks::{Ended, Left, Stop, close, nothing, open};
use crate::exchanges::{Exchange, arrival, at_last, check_reply};
use crate::refused::tables;
use crate::stops::{MANY_CALLS, NO_STOP, adopted, created, put_rows, rows_of};
use crate::stories::{GREATEST, LAST_DISCARDED, MADE_AGAIN, RELEASE, SET_UP};
use job_facts::{JobStore, StoreFault};
use reply_store::handle;
use schema::{OpenFault, SqlStore};
use sqlite::{Alter, Connection, Error};
use std::alloc::{AllocError, Global};
use std::process::Abort;
use std::test::Fail;

// A schema version: the exchanges that follow the set-up, and the statements that convert tables of
// version 3 to it.
#[derive(Clone, Copy)]
pub(crate) struct Version {
    pub(crate) asked: &'static [Exchange],
    texts: &'static [&'static str],
}

const GROUPING: &str = "CREATE TABLE grouping (batch INTEGER NOT NULL, line INTEGER NOT NULL, \
    place INTEGER NOT NULL, aid BLOB NOT NULL, rank INTEGER NOT NULL CHECK (rank BETWEEN 1 AND \
    999), enc INTEGER NOT NULL CHECK (enc BETWEEN 0 AND 1), tol INTEGER NOT NULL CHECK (tol \
    BETWEEN 0 AND 1), coded BLOB NOT NULL, PRIMARY KEY (batch, line), FOREIGN KEY (batch, place) \
    REFERENCES record (batch, place)) STRICT";

const GROUPINGS: &str = "INSERT INTO grouping SELECT * FROM grouping2";

const TEXTS_OF_ONE: [&str; 7] = [
    GROUPING,
    GROUPINGS,
    "DROP TABLE grouping2",
    "DROP TABLE mark",
    "DROP TABLE version",
    "CREATE TABLE version (id INTEGER NOT NULL PRIMARY KEY CHECK (id = 1), number INTEGER \
    NOT NULL CHECK (number = 1)) STRICT",
    "INSERT INTO version (id, number) VALUES (1, 1)",
];

// Version 1: `enc` has two values, and there are no released request numbers.
pub(crate) const ONE: Version = Version {
    asked: &[],
    texts: &TEXTS_OF_ONE,
};

// Version 1, in which the last blank of the lot is discarded and therefore charged.
const LAST_CHARGED: Version = Version {
    asked: &[LAST_DISCARDED],
    texts: &TEXTS_OF_ONE,
};

// Version 2: as version 1, but with released request numbers.
pub(crate) const TWO: Version = Version {
    asked: &[RELEASE],
    texts: &[
        GROUPING,
        GROUPINGS,
        "DROP TABLE grouping2",
        "DROP TABLE version",
        "CREATE TABLE version (id INTEGER NOT NULL PRIMARY KEY CHECK (id = 1), number INTEGER \
        NOT NULL CHECK (number = 2)) STRICT",
        "INSERT INTO version (id, number) VALUES (1, 2)",
    ],
};

// Version 3, which is the current version.
pub(crate) const THREE: Version = Version {
    asked: &[RELEASE],
    texts: &[],
};

// A product whose name sorts before the name of the product in the set-up. The order of the
// products by name therefore differs from the order in which they were inserted.
const EARLIER_NAME: Exchange = accepted!("/c/other/1", product!("P0", 255), made!("product", "P0"));

// Version 3, with products that weren't inserted in the order of their names.
const OUT_OF_ORDER: Version = Version {
    asked: &[RELEASE, EARLIER_NAME],
    texts: &[],
};

// The result of working on two files: the rows afterwards if the work was completed, and the files
// that remain.
#[derive(Drop)]
struct Done {
    rows: Option<String>,
    ended: Ended,
}

// Returns the rows of all tables and of the schema.
pub(crate) fn all_rows<S: Alter>(alloc: Global, conn: &mut Connection<S>) -> Result<String, Error> {
    let mut text = rows_of(alloc, conn)?;
    put_rows(alloc, conn, "sqlite_master", &mut text)?;
    Ok(text)
}

fn sorted(alloc: Global, rows: &str) -> Result<Vec<&str>, AllocError> {
    let mut lines = Vec::new(alloc);
    for line in rows.lines() {
        lines.push(line)?;
    }
    lines.sort()?;
    Ok(lines)
}

// Checks that the rows are the same in any order.
fn check_same(rt: &impl Abort, alloc: Global, found: &str, wanted: &str) -> Result<(), AllocError> {
    assert_eq!(rt; sorted(alloc, found)?, sorted(alloc, wanted)?);
    Ok(())
}

// Sends `exchanges` to a store and checks the replies.
pub(crate) fn send_all<S: JobStore>(
    rt: &impl Abort,
    alloc: Global,
    store: &mut S,
    exchanges: &[Exchange],
) -> Result<(), Fail> {
    for exchange in exchanges {
        let arrival = arrival(alloc, exchange)?;
        check_reply(rt, exchange, &at_last!(handle(alloc, store, &arrival))?);
    }
    Ok(())
}

// Returns a database of a version, made with `store`, which has no facts yet: it gets the set-up,
// the exchanges of the version, and a spoiled card that is made again. Also returns the rows before
// the conversion from version 3.
pub(crate) fn turned<S: Alter + Drop>(
    rt: &impl Abort,
    alloc: Global,
    version: &Version,
    mut store: SqlStore<S>,
) -> Result<(String, Connection<S>), Fail> {
    send_all(rt, alloc, &mut store, &SET_UP)?;
    send_all(rt, alloc, &mut store, version.asked)?;
    send_all(rt, alloc, &mut store, MADE_AGAIN.exchanges)?;
    turned_over(alloc, version, store)
}

// Converts the tables of `store` to a version. Also returns the rows before the conversion.
fn turned_over<S: Alter + Drop>(
    alloc: Global,
    version: &Version,
    store: SqlStore<S>,
) -> Result<(String, Connection<S>), Fail> {
    let mut conn = store.close();
    let rows = at_last!(all_rows(alloc, &mut conn))?;
    for text in version.texts {
        at_last!(conn.execute(text, &[]))?;
    }
    Ok((rows, conn))
}

// Opens the store of a database. Returns the rows of the database afterwards, unless the device
// failed.
fn taken<S: Alter + Drop>(
    rt: &impl Abort,
    alloc: Global,
    conn: Connection<S>,
) -> Result<(Option<String>, Connection<S>), Fail> {
    if !conn.is_autocommit() {
        return Err(Fail::new("a transaction is open"));
    }
    match SqlStore::adopt(alloc, conn) {
        Ok(store) => {
            let mut conn = store.close();
            let rows = all_rows(alloc, &mut conn).ok();
            Ok((rows, conn))
        }
        Err((conn, fault)) => {
            let fault_of_device = OpenFault::Store {
                fault: StoreFault::Device,
            };
            assert_eq!(rt; fault, fault_of_device);
            Ok((None, conn))
        }
    }
}

// Creates tables of `version` in an empty database. If `version` is `None`, opens the store of the
// database instead.
fn worked<S: Alter + Drop>(
    rt: &impl Abort,
    alloc: Global,
    version: Option<&Version>,
    conn: Connection<S>,
) -> Result<(Option<String>, Connection<S>), Fail> {
    let Some(version) = version else {
        return taken(rt, alloc, conn);
    };
    match created(alloc, conn) {
        Ok(store) => {
            let (rows, conn) = turned(rt, alloc, version, store)?;
            Ok((Some(rows), conn))
        }
        Err(_) => Err(Fail::new("no tables are made")),
    }
}

// Creates tables of `version`, or opens the store if `version` is `None`, in files with the
// contents `left` that stop at `stop`.
fn over_files(
    rt: &impl Abort,
    alloc: Global,
    version: Option<&Version>,
    left: &Left,
    stop: Stop,
) -> Result<Done, Fail> {
    match open(alloc, left, stop) {
        Ok(conn) => {
            let (rows, conn) = worked(rt, alloc, version, conn)?;
            let ended = close(alloc, conn)?;
            Ok(Done { rows, ended })
        }
        Err(ended) => Ok(Done {
            rows: None,
            ended: ended?,
        }),
    }
}

// Opens the store in files that stop at `stop`. The files that remain, as they are and after a
// simulated power failure, can then be opened and have the rows `rows`. Returns `true` if the stop
// was met.
fn has_met(
    rt: &impl Abort,
    alloc: Global,
    files: &Left,
    rows: &str,
    stop: Stop,
) -> Result<bool, Fail> {
    let stopped = over_files(rt, alloc, None, files, stop)?;
    for left in stopped.ended.lefts.iter() {
        let again = over_files(rt, alloc, None, left, NO_STOP)?;
        assert!(rt; again.ended.is_closed);
        let found = again.rows.ok_or("what is left isn't adopted")?;
        check_same(rt, alloc, found.as_str(), rows)?;
    }
    Ok(stopped.rows.is_none() || !stopped.ended.is_closed)
}

// Opens files as a database and closes them, without opening a store.
fn reopened(alloc: Global, files: &Left) -> Result<Ended, Fail> {
    match open(alloc, files, NO_STOP) {
        Ok(conn) => Ok(close(alloc, conn)?),
        Err(_) => Err(Fail::new("the files aren't opened")),
    }
}

// Opens the store in files of a version, and checks that they have the same rows afterwards.
// Returns `true` if the store wrote nothing: every byte of the files is the same as after opening
// and closing only the database.
fn stay(rt: &impl Abort, alloc: Global, version: &Version) -> Result<bool, Fail> {
    let made = over_files(rt, alloc, Some(version), &nothing(alloc), NO_STOP)?;
    let rows = made.rows.ok_or("no rows")?;
    let files = made.ended.lefts.first().ok_or("no files")?;
    let adopted = over_files(rt, alloc, None, files, NO_STOP)?;
    let found = adopted.rows.ok_or("the files aren't adopted")?;
    check_same(rt, alloc, found.as_str(), rows.as_str())?;
    Ok(adopted.ended.lefts == reopened(alloc, files)?.lefts)
}

// Checks a stop at each call of the WAL, or of the database file if `is_log` is false, until the
// files are opened without meeting a stop.
fn check_stops(
    rt: &impl Abort,
    alloc: Global,
    version: &Version,
    is_log: bool,
) -> Result<(), Fail> {
    let made = over_files(rt, alloc, Some(version), &nothing(alloc), NO_STOP)?;
    let rows = made.rows.ok_or("no rows")?;
    let files = made.ended.lefts.first().ok_or("no files")?;
    for calls in 0..MANY_CALLS {
        let (log, db) = if is_log {
            (calls, MANY_CALLS)
        } else {
            (MANY_CALLS, calls)
        };
        if !has_met(rt, alloc, files, rows.as_str(), Stop { log, db })? {
            assert!(rt; calls > 0);
            return Ok(());
        }
    }
    Err(Fail::new("each adoption met a stop"))
}

// Checks that a database of a version, made with `store`, is opened. If an allocation fails, its
// rows don't change, and it can be opened afterwards.
fn check_memory<S: Alter + Drop>(
    rt: &impl Abort,
    alloc: Global,
    version: &Version,
    store: SqlStore<S>,
) -> Result<(), Fail> {
    let (rows, conn) = turned(rt, alloc, version, store)?;
    check_adopted(rt, alloc, rows.as_str(), conn)
}

// Checks that a database is opened and has the rows `rows` afterwards.
fn check_adopted<S: Alter + Drop>(
    rt: &impl Abort,
    alloc: Global,
    rows: &str,
    mut conn: Connection<S>,
) -> Result<(), Fail> {
    let before = at_last!(all_rows(alloc, &mut conn))?;
    if !conn.is_autocommit() {
        return Err(Fail::new("a transaction is open"));
    }
    let store = match SqlStore::adopt(alloc, conn) {
        Ok(store) => store,
        Err((mut conn, fault)) => {
            let refused = OpenFault::Store {
                fault: StoreFault::Memory,
            };
            assert_eq!(rt; fault, refused);
            assert_eq!(rt; all_rows(alloc, &mut conn)?, before);
            adopted(alloc, conn)?
        }
    };
    let mut conn = store.close();
    let found = at_last!(all_rows(alloc, &mut conn))?;
    at_last!(check_same(rt, alloc, found.as_str(), rows))?;
    Ok(())
}

#[test]
fn a_stop_at_each_call_of_files_of_version_one(rt: HostRuntime) -> Result<(), Fail> {
    check_stops(&rt, rt.alloc(), &ONE, true)?;
    check_stops(&rt, rt.alloc(), &ONE, false)
}

#[test]
fn a_stop_at_each_call_of_files_of_version_two(rt: HostRuntime) -> Result<(), Fail> {
    check_stops(&rt, rt.alloc(), &TWO, true)?;
    check_stops(&rt, rt.alloc(), &TWO, false)
}

#[test]
fn files_of_our_own_tables_stay_and_others_do_not(rt: HostRuntime) -> Result<(), Fail> {
    assert!(&rt; stay(&rt, rt.alloc(), &OUT_OF_ORDER)?);
    assert!(&rt; !stay(&rt, rt.alloc(), &ONE)?);
    Ok(())
}

#[test]
fn tables_of_version_one(rt: HostRuntime) -> Result<(), Fail> {
    let store = tables(rt.alloc())?;
    check_memory(&rt, rt.alloc(), &LAST_CHARGED, store)
}

#[test]
fn tables_of_the_greatest_numbers(rt: HostRuntime) -> Result<(), Fail> {
    let mut store = tables(rt.alloc())?;
    send_all(&rt, rt.alloc(), &mut store, &GREATEST)?;
    let (rows, conn) = turned_over(rt.alloc(), &TWO, store)?;
    check_adopted(&rt, rt.alloc(), rows.as_str(), conn)
}

#[test]
fn tables_of_our_own(rt: HostRuntime) -> Result<(), Fail> {
    let store = tables(rt.alloc())?;
    check_memory(&rt, rt.alloc(), &THREE, store)
}
