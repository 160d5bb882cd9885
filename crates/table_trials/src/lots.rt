//! Tests that the lot of a blank is found without reading all lots: each statement may visit only a
//! few rows.
use row_reads::all_lots;
use sql_tables::make_tables;
use sqlite::types::ValueRef;
use sqlite::{Alter, Connection};
use std::alloc::Global;
use std::process::Abort;
use std::test::Fail;
use store_reads::lot_of;

// The number of lots, and of the blanks in each lot.
const LOTS: u32 = 100;

const BLANKS: u32 = 10;

// The number of rows that a statement may visit.
const MOST_STEPS: u64 = 10;

const ADD_PRODUCT: &str = "INSERT INTO product (name, max, low, checked) VALUES ('P1', 255, 0, 0)";

const ADD_LOT: &str = "INSERT INTO lot (name, product, low_serial, amount, discarded) VALUES (?1, \
    'P1', ?2, 10, 0)";

fn add_lots<S: Alter>(alloc: Global, conn: &mut Connection<S>) -> Result<(), Fail> {
    conn.execute(ADD_PRODUCT, &[])?;
    for lot in 0..LOTS {
        let name = format!(in alloc; "L{lot}")?;
        let first = i64::from(lot * BLANKS);
        let values = [
            ValueRef::Text(name.as_str().as_bytes()),
            ValueRef::Int(first),
        ];
        conn.execute(ADD_LOT, &values)?;
    }
    Ok(())
}

// Returns the first serial of the lot that contains `blank`.
fn found<S: Alter>(
    rt: &impl Abort,
    conn: &mut Connection<S>,
    blank: u64,
) -> Result<Option<u64>, Fail> {
    assert!(rt; conn.is_autocommit());
    let lot = lot_of(conn, blank)?;
    Ok(lot.map(|lot| lot.first))
}

#[test]
fn lot_is_found_in_few_steps(rt: HostRuntime) -> Result<(), Fail> {
    let mut conn = Connection::open_in_memory(rt.alloc())?;
    make_tables(&mut conn)?;
    add_lots(rt.alloc(), &mut conn)?;
    conn.set_step_limit(Some(MOST_STEPS));
    for (blank, first) in [
        (0, Some(0)),
        (509, Some(500)),
        (999, Some(990)),
        (1_000, None),
    ] {
        assert!(rt; found(&rt, &mut conn, blank)? == first);
    }
    assert!(rt; conn.is_autocommit());
    assert!(rt; all_lots(&mut conn).is_err());
    Ok(())
}
