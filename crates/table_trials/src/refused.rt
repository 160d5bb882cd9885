//! Tests of stories over lists and over tables in memory. Each test succeeds without a failed
//! allocation and if any single allocation fails: the call then reports that it is out of memory,
//! changes nothing, and returns the right result when it is repeated.
ghost use Rattle.job_facts.specs.Requests.{IsArrival};

use crate::exchanges::{Exchange, arrival, at_last, check_reply};
use crate::stories::{
    CLOSING, KNOWN, LATE_RESET, MADE_AGAIN, RELEASES, Story, TAKEN, TURNED_DOWN, WITHDRAWAL, WORDS,
};
use arrivals::Kept;
use job_facts::{Arrival, JobStore, StoreFault};
use list_store::ListStore;
use reply_store::handle;
use schema::SqlStore;
use sqlite::{Connection, MemStore};
use std::alloc::Global;
use std::process::Abort;
use std::test::Fail;
use store_data::Name;

// Returns the account of batch B1: records, waiting, running, failed, withdrawn, good, sessions and
// spoiled.
fn batch_of<S: JobStore>(store: &mut S) -> Result<[u64; 8], Fail> {
    let batch = Name::new(b"B1").ok_or("no name")?;
    let t = at_last!(store.batch_totals(&batch))?;
    Ok([
        t.records,
        t.waiting,
        t.running,
        t.failed,
        t.withdrawn,
        t.good,
        t.sessions,
        t.spoiled,
    ])
}

// Returns the account of the blanks of product P1: lots, total, good, running, spoiled and
// discarded.
fn blanks_of<S: JobStore>(store: &mut S) -> Result<[u64; 6], Fail> {
    let product = Name::new(b"P1").ok_or("no name")?;
    let t = at_last!(store.blank_totals(&product))?;
    Ok([t.lots, t.total, t.good, t.running, t.spoiled, t.discarded])
}

// Returns the numbers of products, lots, batches and sessions, and of kept replies under the client
// and request number of `arrival`.
fn counts_of<S: JobStore>(store: &mut S, arrival: &Arrival) -> Result<[u64; 5], StoreFault> {
    let kept = store.kept(&arrival.client, arrival.number)?;
    Ok([
        store.product_count()?,
        store.lot_count()?,
        store.batch_count()?,
        store.session_count()?,
        u64::from(kept.is_some()),
    ])
}

// Returns the reply to `arrival`. If an allocation fails, nothing changes, and the arrival gets its
// reply when it is repeated.
fn reply_at_last<S: JobStore>(
    rt: &impl Abort,
    alloc: Global,
    store: &mut S,
    arrival: &Arrival,
) -> Result<Kept, Fail>
    requires { IsArrival arrival.now }
{
    let counts = at_last!(counts_of(store, arrival))?;
    let (batch, blanks) = (batch_of(store)?, blanks_of(store)?);
    match handle(alloc, store, arrival) {
        Ok(kept) => Ok(kept),
        Err(fault) => {
            assert_eq!(rt; fault, StoreFault::Memory);
            assert_eq!(rt; counts_of(store, arrival)?, counts);
            assert_eq!(rt; batch_of(store)?, batch);
            assert_eq!(rt; blanks_of(store)?, blanks);
            Ok(handle(alloc, store, arrival)?)
        }
    }
}

// Sends each exchange twice. Both times it gets its reply, and the second time nothing changes.
fn send_all<S: JobStore>(
    rt: &impl Abort,
    alloc: Global,
    store: &mut S,
    exchanges: &[Exchange],
) -> Result<(), Fail> {
    for exchange in exchanges {
        let arrival = arrival(alloc, exchange)?;
        check_reply(rt, exchange, &reply_at_last(rt, alloc, store, &arrival)?);
        let counts = at_last!(counts_of(store, &arrival))?;
        check_reply(rt, exchange, &reply_at_last(rt, alloc, store, &arrival)?);
        assert_eq!(rt; at_last!(counts_of(store, &arrival))?, counts);
    }
    Ok(())
}

// Sends a story to a store without facts, and checks the accounts of B1 and of the blanks of P1 at
// its end.
fn check_over<S: JobStore>(
    rt: &impl Abort,
    alloc: Global,
    store: &mut S,
    story: &Story,
) -> Result<(), Fail> {
    send_all(rt, alloc, store, story.stock)?;
    send_all(rt, alloc, store, story.exchanges)?;
    assert_eq!(rt; batch_of(store)?, story.batch);
    assert_eq!(rt; blanks_of(store)?, story.blanks);
    Ok(())
}

// Returns a store without facts over tables in memory.
pub(crate) fn tables(alloc: Global) -> Result<SqlStore<MemStore>, Fail> {
    let conn = at_last!(Connection::open_in_memory(alloc))?;
    match SqlStore::create(alloc, conn) {
        Ok(store) => Ok(store),
        Err((conn, _)) => Ok(SqlStore::create(alloc, conn).ok().ok_or("no tables")?),
    }
}

fn check(rt: &impl Abort, alloc: Global, story: &Story) -> Result<(), Fail> {
    check_over(rt, alloc, &mut ListStore::new(alloc), story)?;
    check_over(rt, alloc, &mut tables(alloc)?, story)
}

#[test]
fn turned_down(rt: HostRuntime) -> Result<(), Fail> {
    check(&rt, rt.alloc(), &TURNED_DOWN)
}

#[test]
fn words(rt: HostRuntime) -> Result<(), Fail> {
    check(&rt, rt.alloc(), &WORDS)
}

#[test]
fn a_card_that_is_made_again(rt: HostRuntime) -> Result<(), Fail> {
    check(&rt, rt.alloc(), &MADE_AGAIN)
}

#[test]
fn a_batch_that_is_closed(rt: HostRuntime) -> Result<(), Fail> {
    check(&rt, rt.alloc(), &CLOSING)
}

#[test]
fn what_is_known(rt: HostRuntime) -> Result<(), Fail> {
    check(&rt, rt.alloc(), &KNOWN)
}

#[test]
fn blanks_and_lots_that_are_taken(rt: HostRuntime) -> Result<(), Fail> {
    check(&rt, rt.alloc(), &TAKEN)
}

#[test]
fn a_late_reset(rt: HostRuntime) -> Result<(), Fail> {
    check(&rt, rt.alloc(), &LATE_RESET)
}

#[test]
fn a_withdrawal(rt: HostRuntime) -> Result<(), Fail> {
    check(&rt, rt.alloc(), &WITHDRAWAL)
}

#[test]
fn released_numbers(rt: HostRuntime) -> Result<(), Fail> {
    check(&rt, rt.alloc(), &RELEASES)
}
