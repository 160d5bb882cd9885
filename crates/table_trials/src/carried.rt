//! Tests that a store in files of an earlier schema version works as before. Requests that had
//! replies get the same replies again, even a refusal. A new card is made, and the batches are
//! reported.
use crate::bodies::{accepted, answer, command, ended, imported, open, opened};
use crate::disks::{Ended, Left, close, nothing, open};
use crate::exchanges::Exchange;
use crate::stops::{NO_STOP, adopted, created};
use crate::stories::{MADE_AGAIN, NUMBER_RELEASED, SET_UP};
use crate::versions::{ONE, TWO, Version, send_all, turned};
use job_facts::JobStore;
use reports::close_report;
use sqlite::types::ValueRef;
use sqlite::{Alter, Connection};
use std::alloc::Global;
use std::process::Abort;
use std::test::Fail;
use store_data::Name;

const MIXED: &str = "record,aid,rank,enc,tol,dgi\nR1,F00000000101,1,2,0,9002021122\n";

// An import that was refused because its `enc` is 2, which these versions don't know.
const REFUSED: Exchange = Exchange(
    "/c/office/6/batch/B2/P1",
    MIXED,
    409,
    r#"{"code":35,"refused":"mark","row":2}"#,
);

// The request bytes of `REFUSED`.
const ASK: &[u8] = b"/batch/B2/P1\0record,aid,rank,enc,tol,dgi\nR1,F00000000101,1,2,0,9002021122\n";

// The same import under a new request number, and its card.
const ANEW: [Exchange; 4] = [
    accepted!("/c/office/7/batch/B2/P1", MIXED, imported!("B2", 1)),
    accepted!("/c/m1/7", open!("B2", 1002), opened!("B2", 1002, "R1", 3)),
    accepted!(
        "/c/m1/8",
        answer!(3, 0, "9000"),
        command!("80E2A000059002021122", 1, 3)
    ),
    accepted!("/c/m1/9", answer!(3, 1, "9000"), ended!("good", 3)),
];

const REPORTS: [(&[u8], &str); 2] = [
    (
        b"B1",
        "batch B1
product P1
state open
record R1 good 2 1001
records            1
waiting            0
running            0
failed             0
withdrawn          0
good               1
sessions           2
spoiled            1
",
    ),
    (
        b"B2",
        "batch B2
product P1
state open
record R1 good 1 1002
records            1
waiting            0
running            0
failed             0
withdrawn          0
good               1
sessions           1
spoiled            0
",
    ),
];

// A part of the test, which works on files.
#[derive(Clone, Copy)]
enum Part {
    // Creates tables of a version.
    Made,
    // Opens the store and sends requests to it.
    Served,
}

// Creates a database of a version in which the refusal is kept.
fn made<S: Alter + Drop>(
    rt: &impl Abort,
    alloc: Global,
    version: &Version,
    conn: Connection<S>,
) -> Result<Connection<S>, Fail> {
    let store = created(alloc, conn).ok().ok_or("no tables are made")?;
    let (_, mut conn) = turned(rt, alloc, version, store)?;
    conn.execute(
        "INSERT INTO reply (client, number, ask, status, body) VALUES ('office', 6, ?1, 409, ?2)",
        &[ValueRef::Blob(ASK), ValueRef::Blob(REFUSED.3.as_bytes())],
    )?;
    Ok(conn)
}

// Returns the exchanges of the set-up with the replies to their repeats, which depend on whether
// their request numbers are released.
fn set_up_again(version: &Version) -> [Exchange; 3] {
    let mut again = SET_UP;
    if !version.asked.is_empty() {
        for exchange in again.iter_mut() {
            *exchange = Exchange(exchange.0, exchange.1, 409, NUMBER_RELEASED);
        }
    }
    again
}

// Checks the replies and the reports of a store that was opened from a database of a version.
fn check_served<S: JobStore>(
    rt: &impl Abort,
    alloc: Global,
    version: &Version,
    store: &mut S,
) -> Result<(), Fail> {
    send_all(rt, alloc, store, &set_up_again(version))?;
    send_all(rt, alloc, store, version.asked)?;
    send_all(rt, alloc, store, MADE_AGAIN.exchanges)?;
    send_all(rt, alloc, store, &[REFUSED])?;
    send_all(rt, alloc, store, &ANEW)?;
    send_all(rt, alloc, store, &[REFUSED])?;
    for (batch, report) in REPORTS {
        let batch = Name::new(batch).ok_or("no name")?;
        let mut text = Vec::new(alloc);
        close_report(alloc, store, &batch, &mut text)?;
        assert_eq!(rt; text.as_slice(), report.as_bytes());
    }
    Ok(())
}

fn served<S: Alter + Drop>(
    rt: &impl Abort,
    alloc: Global,
    version: &Version,
    conn: Connection<S>,
) -> Result<Connection<S>, Fail> {
    let mut store = adopted(alloc, conn)?;
    check_served(rt, alloc, version, &mut store)?;
    Ok(store.close())
}

// Opens files with the contents `left`, performs a part of the test, and closes them.
fn over_files(
    rt: &impl Abort,
    alloc: Global,
    version: &Version,
    part: Part,
    left: &Left,
) -> Result<Ended, Fail> {
    match open(alloc, left, NO_STOP) {
        Ok(conn) => {
            let conn = match part {
                Part::Made => made(rt, alloc, version, conn)?,
                Part::Served => served(rt, alloc, version, conn)?,
            };
            Ok(close(alloc, conn)?)
        }
        Err(_) => Err(Fail::new("the files aren't opened")),
    }
}

fn check(rt: &impl Abort, alloc: Global, version: &Version) -> Result<(), Fail> {
    let made = over_files(rt, alloc, version, Part::Made, &nothing(alloc))?;
    let files = made.lefts.first().ok_or("no files")?;
    let served = over_files(rt, alloc, version, Part::Served, files)?;
    assert!(rt; served.is_closed);
    Ok(())
}

#[test]
fn files_of_version_one_are_served_as_before(rt: HostRuntime) -> Result<(), Fail> {
    check(&rt, rt.alloc(), &ONE)
}

#[test]
fn files_of_version_two_are_served_as_before(rt: HostRuntime) -> Result<(), Fail> {
    check(&rt, rt.alloc(), &TWO)
}
