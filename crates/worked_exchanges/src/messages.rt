//! Checks messages, given as bytes, and their responses.
use crate::exchanges::exchange;
use crate::ways::{
    Exchange, ONE_BY_ONE, StoreKind, WHOLE, Way, are_few, check_wanted, check_way, connected,
    inputs, over, served,
};
use job_facts::JobStore;
use server::Replied;
use std::alloc::{AllocError, Global};
use worked_files::{Case, CaseFault, Line, Wanted, check_bytes, put_bytes};

const PIECES: Way = Way {
    name: "in pieces of 7 bytes",
    most: 7,
    behind: b"",
};

const BEHIND: Way = Way {
    name: "with bytes behind",
    most: 8192,
    behind: b"GET / HTTP/1.1\r\n\r\n",
};

/// Runs a case in every way with the stores `K` and `L`, and if it has few messages also with `M`.
/// Every run has its own store, and all must have the same output.
pub fn check_messages<K: StoreKind, L: StoreKind, M: StoreKind>(
    alloc: Global,
    case: &Case,
) -> Result<(), CaseFault> {
    let (is_cut, lines) = match case.lines.split_first() {
        Some((first, others)) if first.text.as_str() == "cut" => (true, others),
        _ => (false, case.lines.as_slice()),
    };
    let exchanges = messages_of(alloc, lines)?;
    let exchanges = exchanges.as_slice();
    let first = served::<K>(alloc, exchanges, WHOLE)?;
    over::<K>(check_wanted(alloc, exchanges, WHOLE.name, first.replies(), true))?;
    over::<K>(check_ways::<K>(alloc, exchanges, first.replies(), is_cut))?;
    over::<L>(check_ways::<L>(alloc, exchanges, first.replies(), is_cut))?;
    if are_few(exchanges) {
        over::<M>(check_ways::<M>(alloc, exchanges, first.replies(), is_cut))?;
    }
    Ok(())
}

fn check_ways<K: StoreKind>(
    alloc: Global,
    exchanges: &[Exchange],
    first: &[Replied],
    is_cut: bool,
) -> Result<(), CaseFault> {
    check_way::<K>(alloc, exchanges, WHOLE, first)?;
    check_way::<K>(alloc, exchanges, PIECES, first)?;
    check_way::<K>(alloc, exchanges, ONE_BY_ONE, first)?;
    if are_answered(exchanges) {
        check_way::<K>(alloc, exchanges, BEHIND, first)?;
    }
    if is_cut {
        check_cut::<K>(alloc, exchanges)?;
    }
    Ok(())
}

// Returns `true` if every message gets a response.
fn are_answered(exchanges: &[Exchange]) -> bool {
    exchanges.iter().all(|exchange| match exchange.wanted {
        Wanted::Bytes(_) => true,
        Wanted::Any | Wanted::Nothing => false,
    })
}

// Returns the messages of a case: the lines up to the expected output after them.
fn messages_of(alloc: Global, lines: &[Line]) -> Result<Vec<Exchange>, CaseFault> {
    let mut exchanges = Vec::new(alloc);
    let mut bytes = Vec::new(alloc);
    let mut has_begun = false;
    for (i, line) in lines.iter().enumerate() {
        if line.is_answer {
            if has_begun {
                let behind = lines.get(i..).unwrap_or(&[]);
                exchanges.push(exchange(alloc, line.number, bytes, behind)?)?;
                bytes = Vec::new(alloc);
            }
            has_begun = false;
        } else if !line.text.is_empty() {
            has_begun = true;
            if !put_bytes(&mut bytes, line.text.as_str())? {
                return Err(CaseFault::Form { line: line.number });
            }
        }
    }
    if has_begun {
        return Err(CaseFault::Form { line: 0 });
    }
    Ok(exchanges)
}

// Checks that nothing is written for any prefix of a message, each on its own connection, and then
// sends the complete message.
fn check_cut<K: StoreKind>(alloc: Global, exchanges: &[Exchange]) -> Result<(), CaseFault> {
    let mut store = K::fresh(alloc)?;
    for exchange in exchanges {
        check_fronts(alloc, &mut store, exchange)?;
        let one = std::slice::from_ref(exchange);
        let whole = connected(alloc, &mut store, inputs(alloc, one, b"")?, WHOLE.most)?;
        let way = "whole behind the cut ones";
        check_wanted(alloc, one, way, whole.replies(), false)?;
    }
    Ok(())
}

// Checks that nothing is written for an incomplete message.
fn check_fronts<S: JobStore>(
    alloc: Global,
    store: &mut S,
    exchange: &Exchange,
) -> Result<(), CaseFault> {
    let fronts = fronts(alloc, exchange.input.as_slice())?;
    let cut = connected(alloc, store, fronts, WHOLE.most)?;
    for replied in cut.replies() {
        let came = replied.written.as_slice();
        check_bytes(alloc, exchange.line, "cut", b"", came)?;
    }
    Ok(())
}

// Returns the proper prefixes of an input.
fn fronts(alloc: Global, input: &[u8]) -> Result<Vec<Vec<u8>>, AllocError> {
    let mut fronts = Vec::new(alloc);
    for cut in 0..input.len() {
        fronts.push(input[..cut].to_vec(alloc)?)?;
    }
    Ok(fronts)
}
