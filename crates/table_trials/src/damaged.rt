//! Tests that databases with one difference from a sound database are refused and don't change.
use crate::bodies::{accepted, ended, imported, lot, made, open, opened};
use crate::exchanges::Exchange;
use crate::refused::tables;
use crate::stops::adopted;
use crate::stories::{MADE_AGAIN, SET_UP};
use crate::versions::{all_rows, send_all};
use audit_rows::is_sound;
use book_file::read_book;
use over_tables::{FileFault, Wanted, store_over};
use schema::SqlStore;
use sqlite::{Alter, Connection};
use std::alloc::{AllocError, Global};
use std::process::Abort;
use std::test::Fail;

// The name of a difference, the statements that produce it, and the reason why the database is then
// refused: the number of the refusal, its cause, and the name of the table, index or view that
// differs.
#[derive(Clone, Copy)]
struct Damage(&'static str, &'static [&'static str], &'static str);

// Databases that don't have the tables of any schema version, or whose table `version` doesn't have
// the right row.
const NOT_OURS: [Damage; 7] = [
    Damage(
        "a table missing",
        &["DROP TABLE remake"],
        "81 missing-table remake",
    ),
    Damage(
        "a table more",
        &["CREATE TABLE note (id INTEGER NOT NULL PRIMARY KEY) STRICT"],
        "81 foreign-table note",
    ),
    Damage(
        "a column more",
        &[
            "DROP TABLE mark",
            "CREATE TABLE mark (client TEXT NOT NULL PRIMARY KEY, upto INTEGER NOT NULL CHECK \
            (upto BETWEEN 1 AND 999999999999999999), note TEXT NOT NULL) STRICT",
        ],
        "81 other-table mark",
    ),
    Damage(
        "another version",
        &[
            "DROP TABLE version",
            "CREATE TABLE version (id INTEGER NOT NULL PRIMARY KEY CHECK (id = 1), number INTEGER \
            NOT NULL CHECK (number = 4)) STRICT",
            "INSERT INTO version (id, number) VALUES (1, 4)",
        ],
        "81 other-table version",
    ),
    Damage("no version", &["DELETE FROM version"], "81 other-version"),
    Damage(
        "a key more",
        &["CREATE UNIQUE INDEX one_lot ON lot (low_serial)"],
        "81 further-key one_lot",
    ),
    Damage(
        "a view",
        &["CREATE VIEW machines AS SELECT machine FROM session"],
        "81 view machines",
    ),
];

// Rows that don't represent sound contents.
const DAMAGED: [Damage; 18] = [
    Damage(
        "a session's state",
        &["UPDATE session SET state = 0 WHERE id = 1"],
        "82 files",
    ),
    Damage(
        "a session's words",
        &["UPDATE session SET words = 1 WHERE id = 1"],
        "82 files",
    ),
    Damage(
        "a cursor's application",
        &["UPDATE session SET app = app + 1 WHERE id = 1"],
        "82 files",
    ),
    Damage(
        "a cursor's segment",
        &["UPDATE session SET segment = segment + 1 WHERE id = 1"],
        "82 files",
    ),
    Damage(
        "a cursor's place in its segment",
        &["UPDATE session SET at_offset = at_offset + 1 WHERE id = 1"],
        "82 files",
    ),
    Damage(
        "a cursor's block",
        &["UPDATE session SET block = block + 1 WHERE id = 1"],
        "82 files",
    ),
    Damage(
        "a word missing",
        &["DELETE FROM word WHERE session = 1 AND place = 1"],
        "82 files",
    ),
    Damage(
        "a blank row missing",
        &["DELETE FROM blank WHERE serial = 1000"],
        "82 opened-blanks",
    ),
    Damage(
        "a batch's counter one higher",
        &["UPDATE batch SET spoiled = spoiled + 1 WHERE id = 1"],
        "82 files",
    ),
    Damage(
        "a lot's counter one higher",
        &["UPDATE lot SET discarded = discarded + 1 WHERE name = 'L1'"],
        "82 lot-counters",
    ),
    Damage(
        "a grouping's coded form",
        &["UPDATE grouping2 SET coded = X'0101027001' WHERE batch = 1"],
        "82 files",
    ),
    Damage(
        "a file whose rank is 0",
        &[
            "UPDATE batch SET raw = X'7265636F72642C6169642C72616E6B2C656E632C746F6C2C6467690A\
            52312C4630303030303030303130312C302C302C302C303130313032373030300A' WHERE id = 1",
        ],
        "82 files",
    ),
    Damage(
        "overlapping lots",
        &[
            "INSERT INTO lot (name, product, low_serial, amount, discarded) \
            VALUES ('L9', 'P1', 1002, 5, 0)",
        ],
        "82 lots",
    ),
    Damage(
        "a second running session of a machine",
        &["UPDATE session SET machine = 'm1' WHERE id = 4"],
        "82 machines",
    ),
    Damage(
        "a closed batch with a failed record",
        &["UPDATE batch SET closed = 1 WHERE name = 'B3'"],
        "82 files",
    ),
    Damage(
        "a reply of status 500",
        &["UPDATE reply SET status = 500 WHERE client = 'office' AND number = 1"],
        "82 replies",
    ),
    Damage(
        "a reply whose number its client has released",
        &["INSERT INTO mark (client, upto) VALUES ('office', 1)"],
        "82 released-replies",
    ),
    Damage(
        "a reply whose number is below 0",
        &["UPDATE reply SET number = -1 WHERE client = 'office' AND number = 1"],
        "82 unreadable-row",
    ),
];

// Rows with a value that no row of a sound database has: one for each table whose checks allow such
// a value, except `reply`, which `DAMAGED` covers.
const UNREADABLE: [Damage; 8] = [
    Damage(
        "a lot's first serial below 0",
        &["UPDATE lot SET low_serial = -1 WHERE name = 'L1'"],
        "82 unreadable-row",
    ),
    Damage(
        "a batch's counter below 0",
        &["UPDATE batch SET waiting = -1 WHERE id = 1"],
        "82 unreadable-row",
    ),
    Damage(
        "a record's counter below 0",
        &["UPDATE record SET spoiled = -1 WHERE batch = 1"],
        "82 unreadable-row",
    ),
    Damage(
        "a grouping's line below 0",
        &["UPDATE grouping2 SET line = -1 WHERE batch = 1"],
        "82 unreadable-row",
    ),
    Damage(
        "a session's words below 0",
        &["UPDATE session SET words = -1 WHERE id = 1"],
        "82 unreadable-row",
    ),
    Damage(
        "a word's place below 0",
        &["UPDATE word SET place = -1 WHERE session = 1 AND place = 1"],
        "82 unreadable-row",
    ),
    Damage(
        "a blank's serial below 0",
        &["INSERT INTO blank (serial, lot, kind) VALUES (-1, 'L1', 1)"],
        "82 unreadable-row",
    ),
    Damage(
        "a remake's turn below 0",
        &["UPDATE remake SET turn = -1 WHERE batch = 1"],
        "82 unreadable-row",
    ),
];

// Two machines with a running session each, and a batch whose only record failed.
const FURTHER: [Exchange; 7] = [
    accepted!("/c/office/6", lot!("L2", "P1", 2000, 5), made!("lot", "L2")),
    accepted!(
        "/c/office/7/batch/B2/P1",
        "record,aid,rank,enc,tol,dgi\n\
        R1,F00000000101,1,0,0,0101027000\n\
        R2,F00000000101,1,0,0,0101027000\n",
        imported!("B2", 2)
    ),
    accepted!("/c/m1/7", open!("B2", 2000), opened!("B2", 2000, "R1", 3)),
    accepted!("/c/m2/1", open!("B2", 2001), opened!("B2", 2001, "R2", 4)),
    accepted!(
        "/c/office/8/batch/B3/P1",
        "record,aid,rank,enc,tol,dgi\nR1,F00000000101,1,0,0,0101027000\n",
        imported!("B3", 1)
    ),
    accepted!("/c/m3/1", open!("B3", 2002), opened!("B3", 2002, "R1", 5)),
    accepted!(
        "/c/m3/2",
        r#"{"do":"abort","session":5}"#,
        ended!("spoiled", 5)
    ),
];

// Returns a sound database, made with `store`, which has no facts yet.
fn sound<S: Alter + Drop>(
    rt: &impl Abort,
    alloc: Global,
    mut store: SqlStore<S>,
) -> Result<Connection<S>, Fail> {
    send_all(rt, alloc, &mut store, &SET_UP)?;
    send_all(rt, alloc, &mut store, MADE_AGAIN.exchanges)?;
    send_all(rt, alloc, &mut store, &FURTHER)?;
    Ok(store.close())
}

// Returns the number of the refusal, its cause, and the name of the table, index or view that
// differs.
fn text_of(alloc: Global, fault: &FileFault) -> Result<Vec<u8>, AllocError> {
    let (text, name) = match fault {
        FileFault::NotOurs { cause } => (format!(in alloc; "81 {cause}")?, cause.name()),
        FileFault::Damaged { cause } => (format!(in alloc; "82 {cause}")?, None),
        FileFault::Storage | FileFault::Memory => (String::new(alloc), None),
    };
    let mut bytes = text.into_bytes();
    if let Some(name) = name {
        bytes.push(b' ')?;
        bytes.extend_from_slice(name)?;
    }
    Ok(bytes)
}

// Returns the reason why `shopbook` refuses a database or finds it damaged, in the form of
// `text_of`. The result is empty if there is no damage. `is_sound` must agree.
fn book_text<S: Alter>(alloc: Global, conn: &mut Connection<S>) -> Result<Vec<u8>, Fail> {
    if !conn.is_autocommit() {
        return Err(Fail::new("a transaction is open"));
    }
    let fault = match read_book(alloc, conn) {
        Ok(book) => {
            if is_sound(alloc, &book.tables)? != book.failing.is_none() {
                return Err(Fail::new("`is_sound` and the audit differ"));
            }
            match book.failing {
                Some(rule) => FileFault::Damaged {
                    cause: examination::Damage::Broken { rule },
                },
                None => return Ok(Vec::new(alloc)),
            }
        }
        Err(fault) => fault,
    };
    Ok(text_of(alloc, &fault)?)
}

// Checks that a database with this damage is refused, and that its rows and its schema don't
// change. `shopbook` must report the same cause.
fn check_refused<S: Alter + Drop>(
    rt: &impl Abort,
    alloc: Global,
    damage: &Damage,
    mut conn: Connection<S>,
) -> Result<(), Fail> {
    let Damage(name, texts, wanted) = *damage;
    for text in texts {
        assert_eq!(rt; conn.execute(text, &[]).err(), None, "{name}");
    }
    let rows = all_rows(alloc, &mut conn)?;
    let said = book_text(alloc, &mut conn)?;
    assert_eq!(rt; said.as_slice(), wanted.as_bytes(), "{name}");
    if !conn.is_autocommit() {
        return Err(Fail::new("a transaction is open"));
    }
    match store_over(alloc, conn, Wanted::Ours) {
        Ok(_) => Err(Fail::new(format_args!("{name} is taken"))),
        Err((mut conn, fault)) => {
            assert_eq!(rt;
                text_of(alloc, &fault)?.as_slice(),
                wanted.as_bytes(),
                "{name}"
            );
            assert_eq!(rt; all_rows(alloc, &mut conn)?, rows, "{name}");
            Ok(())
        }
    }
}

// Checks that a sound database with each of these damages is refused.
fn check_all(rt: &impl Abort, alloc: Global, damages: &[Damage]) -> Result<(), Fail> {
    for damage in damages {
        let conn = sound(rt, alloc, tables(alloc)?)?;
        check_refused(rt, alloc, damage, conn)?;
    }
    Ok(())
}

#[test]
fn a_database_without_damage_is_taken(rt: HostRuntime) -> Result<(), Fail> {
    let mut conn = sound(&rt, rt.alloc(), tables(rt.alloc())?)?;
    assert_eq!(rt; book_text(rt.alloc(), &mut conn)?.is_empty(), true);
    adopted(rt.alloc(), conn)?;
    Ok(())
}

#[test]
fn an_empty_database_is_not_ours(rt: HostRuntime) -> Result<(), Fail> {
    let conn = Connection::open_in_memory(rt.alloc())?;
    match store_over(rt.alloc(), conn, Wanted::Ours) {
        Ok(_) => Err(Fail::new("it is taken")),
        Err((_, fault)) => {
            assert_eq!(rt;
                text_of(rt.alloc(), &fault)?.as_slice(),
                b"81 empty".as_slice()
            );
            Ok(())
        }
    }
}

#[test]
fn other_tables_are_not_ours(rt: HostRuntime) -> Result<(), Fail> {
    check_all(&rt, rt.alloc(), &NOT_OURS)
}

#[test]
fn other_rows_are_damage(rt: HostRuntime) -> Result<(), Fail> {
    check_all(&rt, rt.alloc(), &DAMAGED)
}

#[test]
fn unreadable_rows_are_damage(rt: HostRuntime) -> Result<(), Fail> {
    check_all(&rt, rt.alloc(), &UNREADABLE)
}
