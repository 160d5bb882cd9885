//! Makes every card of a batch as a machine.
use crate::typed::reply_to;
use crate::ways::{StoreKind, over};
use job_facts::{JobStore, Reply};
use std::alloc::Global;
use store_data::Product;
use worked_files::{CaseFault, Printed, check_bytes, post, put_command, put_name};

/// Checks that a machine gets the commands that were printed.
pub fn check_machine<K: StoreKind>(alloc: Global, printed: &Printed) -> Result<(), CaseFault> {
    let handed = handed_out::<K>(alloc, printed)?;
    let (wanted, came) = (printed.text.as_bytes(), handed.as_bytes());
    over::<K>(check_bytes(alloc, printed.line, "a machine", wanted, came))
}

// Returns the commands that a machine gets for each record of a batch, in the form in which they
// are printed. The machine reports 9000 for each command.
fn handed_out<K: StoreKind>(alloc: Global, printed: &Printed) -> Result<String, CaseFault> {
    let records = printed.records;
    let mut store = K::fresh(alloc)?;
    stock(alloc, &mut store, printed)?;
    let mut text = String::new(alloc);
    let mut number = 1;
    for blank in 1..records.saturating_add(1) {
        number = make_card(alloc, &mut store, number, blank, &mut text)?;
    }
    Ok(text)
}

// Creates the product, a lot with one blank for each record, and the batch.
fn stock<S: JobStore>(alloc: Global, store: &mut S, printed: &Printed) -> Result<(), CaseFault> {
    let Product {
        max,
        low,
        check,
        ..
    } = printed.product;
    let records = printed.records;
    let made = format!(in alloc;
        "{{\"do\":\"product\",\"product\":\"P1\",\"max\":{max},\"low\":{low},\"check\":{check}}}"
    )?;
    ask(alloc, store, "office", 1, made)?;
    let lot = format!(in alloc;
        "{{\"do\":\"lot\",\"lot\":\"L1\",\"product\":\"P1\",\"first\":1,\"count\":{records}}}"
    )?;
    ask(alloc, store, "office", 2, lot)?;
    let import = post(alloc, "/c/office/3/batch/B1/P1", printed.raw.as_slice())?;
    reply_to(alloc, store, import.as_slice())?;
    Ok(())
}

// Returns the reply to a request.
fn ask<S: JobStore>(
    alloc: Global,
    store: &mut S,
    client: &str,
    number: u64,
    body: String,
) -> Result<Option<Reply>, CaseFault> {
    let target = format!(in alloc; "/c/{client}/{number}")?;
    let input = post(alloc, target.as_str(), body.as_bytes())?;
    reply_to(alloc, store, input.as_slice())
}

// Opens the next record for a blank and reports a status word for each of its commands. Returns the
// next request number.
fn make_card<S: JobStore>(
    alloc: Global,
    store: &mut S,
    number: u64,
    blank: usize,
    text: &mut String,
) -> Result<u64, CaseFault> {
    let open = format!(in alloc; "{{\"do\":\"open\",\"batch\":\"B1\",\"blank\":{blank}}}")?;
    match ask(alloc, store, "m1", number, open)? {
        Some(
            Reply::Opened {
                command,
                rec,
                session,
                ..
            },
        ) => {
            put_name(alloc, text, rec.bytes())?;
            put_command(alloc, text, command.as_slice())?;
            personalise(alloc, store, session, number.saturating_add(1), text)
        }
        _ => {
            text.push_str("no record is opened\n")?;
            Ok(number)
        }
    }
}

// Sends an `answer` request for each command of a session until its card is good. Returns the next
// request number.
fn personalise<S: JobStore>(
    alloc: Global,
    store: &mut S,
    session: u64,
    from: u64,
    text: &mut String,
) -> Result<u64, CaseFault> {
    for index in 0..100_000u64 {
        let number = from.saturating_add(index);
        let body = format!(in alloc;
            "{{\"do\":\"answer\",\"session\":{session},\"index\":{index},\"sw\":\"9000\"}}"
        )?;
        match ask(alloc, store, "m1", number, body)? {
            Some(Reply::Next { command, .. }) => put_command(alloc, text, command.as_slice())?,
            Some(Reply::Good { .. }) => return Ok(number.saturating_add(1)),
            _ => break,
        }
    }
    text.push_str("the card is not good\n")?;
    Ok(from)
}
