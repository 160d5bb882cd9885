//! Tests that requests succeed after the highest batch id and the highest session number.
//!
//! No test can open a file with such a session number: the audit refuses gaps between the numbers,
//! so the file would have as many sessions. The test therefore stores a batch and a session with
//! the numbers before the highest directly. The store doesn't check that they are the next ones.
ghost use Rattle.std.specs.Prelude.{◌≡◌};

use crate::bodies::{
    accepted, answer, command, ended, imported, lot, made, open, opened, product, refused,
};
use crate::exchanges::{Exchange, at_last};
use crate::refused::tables;
use crate::stories::ONE_ROW;
use crate::versions::send_all;
use job_facts::{Change, Entry, JobStore, NewBatch, NewSession};
use std::test::Fail;
use store_data::{Name, Product};

// The highest id of a batch: there are at most 4,096 batches.
const HIGHEST_BATCH: u64 = 4_096;

// The highest session number that an `answer` can have.
const HIGHEST_SESSION: u64 = 999_999_999_999_999_999;

const STOCK: [Exchange; 2] = [
    accepted!("/c/office/1", product!("P1", 255), made!("product", "P1")),
    accepted!("/c/office/2", lot!("L1", "P1", 1000, 3), made!("lot", "L1")),
];

// The requests after the batch B1 and a session of its record on the blank 1000.
const HIGHEST: [Exchange; 10] = [
    accepted!("/c/office/4/batch/B2/P1", ONE_ROW, imported!("B2", 1)),
    refused!("/c/office/5/batch/B3/P1", ONE_ROW, 71, "limit"),
    accepted!(
        "/c/m2/1",
        open!("B2", 1001),
        opened!("B2", 1001, "R1", 999999999999999999)
    ),
    Exchange(
        "/c/m2/2",
        open!("B2", 1002),
        409,
        r#"{"code":61,"refused":"machine-busy","session":999999999999999999}"#,
    ),
    accepted!(
        "/c/m2/3",
        answer!(999999999999999999, 0, "9000"),
        command!("80E28000050101027000", 1, 999999999999999999)
    ),
    accepted!(
        "/c/m2/4",
        answer!(999999999999999999, 1, "9000"),
        ended!("good", 999999999999999999)
    ),
    refused!("/c/m2/5", open!("B2", 1001), 60, "blank-used"),
    accepted!(
        "/c/m1/2",
        r#"{"do":"abort","session":999999999999999998}"#,
        ended!("spoiled", 999999999999999998)
    ),
    accepted!(
        "/c/office/6",
        r#"{"do":"remake","batch":"B1","record":"R1"}"#,
        r#"{"batch":"B1","record":"R1","result":"waiting"}"#
    ),
    accepted!(
        "/c/office/7",
        r#"{"do":"close","batch":"B2"}"#,
        r#"{"batch":"B2","result":"closed"}"#
    ),
];

fn name(text: &[u8]) -> Result<Name, Fail> {
    Ok(Name::new(text).ok_or("no name")?)
}

// Returns the kept reply to the request `number` of `client`. No test reads its bytes.
fn entry(client: &Name, number: u64) -> Entry<'_>
    ensures { result.number ≡ number }
{
    Entry {
        client,
        number,
        ask: b"ask",
        status: 200,
        body: b"body",
    }
}

// Stores the batch B1 with the number before the highest.
fn add_batch<S: JobStore>(store: &mut S) -> Result<(), Fail> {
    let product = Product {
        code: name(b"P1")?,
        max: 255,
        low: 0,
        check: false,
    };
    let batch = NewBatch {
        number: HIGHEST_BATCH - 1,
        name: name(b"B1")?,
        product,
        records: 1,
        raw: ONE_ROW.as_bytes(),
    };
    let (office, change) = (name(b"office")?, Change::AddsBatch { batch });
    at_last!(store.commit(&entry(&office, 3), &change))?;
    Ok(())
}

// Stores a session of the machine m1 with the number before the highest. It is on the blank 1000,
// for the record of the batch B1.
fn add_session<S: JobStore>(store: &mut S) -> Result<(), Fail> {
    let machine = name(b"m1")?;
    let session = NewSession {
        number: HIGHEST_SESSION - 1,
        machine,
        blank: 1000,
        lot: name(b"L1")?,
    };
    let change = Change::Opens {
        session,
        batch: name(b"B1")?,
        rec: name(b"R1")?,
    };
    at_last!(store.commit(&entry(&machine, 1), &change))?;
    Ok(())
}

#[test]
fn a_session_and_a_batch_with_the_highest_numbers(rt: HostRuntime) -> Result<(), Fail> {
    let mut store = tables(rt.alloc())?;
    send_all(&rt, rt.alloc(), &mut store, &STOCK)?;
    add_batch(&mut store)?;
    add_session(&mut store)?;
    send_all(&rt, rt.alloc(), &mut store, &HIGHEST)
}
