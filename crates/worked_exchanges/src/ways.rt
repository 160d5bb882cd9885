//! Serves connections in memory and checks their output.
use job_facts::JobStore;
use server::{End, MemoryConnections, Replied, serve_all};
use std::alloc::{AllocError, Global};
use worked_files::{CaseFault, NO_STORE, Wanted, check_bytes};

/// A kind of store. Every run of a case has its own store.
pub trait StoreKind {
    type Store: JobStore + Drop;

    /// Creates an empty store.
    fn fresh(alloc: Global) -> Result<Self::Store, CaseFault>;

    /// Returns the name of the kind, for reports of differences.
    fn called() -> &'static str;
}

/// Adds the name of the store to the report of a difference.
pub fn over<K: StoreKind>(ended: Result<(), CaseFault>) -> Result<(), CaseFault> {
    match ended {
        Err(
            CaseFault::Differs {
                line,
                way,
                store: _,
                wanted,
                came,
            },
        ) => Err(CaseFault::Differs {
            line,
            way,
            store: K::called(),
            wanted,
            came,
        }),
        other => other,
    }
}

/// The input of a connection and its expected output.
#[derive(Drop)]
pub struct Exchange {
    /// The line of the file with the input.
    pub line: u64,
    pub input: Vec<u8>,
    pub wanted: Wanted,
}

/// A way to serve the connections of a case: its name, the maximum number of bytes that arrive at
/// once, and the bytes after each input.
#[derive(Clone, Copy)]
pub struct Way {
    pub name: &'static str,
    pub most: usize,
    pub behind: &'static [u8],
}

// With more requests than this, the run over tables would take too much of the test time.
const FEW: usize = 100;

/// Up to 8,192 bytes arrive at once.
pub const WHOLE: Way = Way {
    name: "whole",
    most: 8192,
    behind: b"",
};

/// One byte arrives at a time.
pub const ONE_BY_ONE: Way = Way {
    name: "one byte at a time",
    most: 1,
    behind: b"",
};

/// Serves the connections of a case, one after another, with a new store.
pub fn served<K: StoreKind>(
    alloc: Global,
    exchanges: &[Exchange],
    way: Way,
) -> Result<MemoryConnections, CaseFault> {
    let mut store = K::fresh(alloc)?;
    let inputs = inputs(alloc, exchanges, way.behind)?;
    connected(alloc, &mut store, inputs, way.most)
}

/// Returns the inputs, each with the given bytes after it.
pub fn inputs(
    alloc: Global,
    exchanges: &[Exchange],
    behind: &[u8],
) -> Result<Vec<Vec<u8>>, AllocError> {
    let mut inputs = Vec::new(alloc);
    for exchange in exchanges {
        let mut input = exchange.input.as_slice().to_vec(alloc)?;
        input.extend_from_slice(behind)?;
        inputs.push(input)?;
    }
    Ok(inputs)
}

/// Checks that the connections of a case have the same output in another way.
pub fn check_way<K: StoreKind>(
    alloc: Global,
    exchanges: &[Exchange],
    way: Way,
    first: &[Replied],
) -> Result<(), CaseFault> {
    let again = served::<K>(alloc, exchanges, way)?;
    check_same(alloc, exchanges, way.name, first, again.replies())
}

/// Returns `true` if a case has few enough connections for the slow store.
pub fn are_few(exchanges: &[Exchange]) -> bool {
    exchanges.len() <= FEW
}

/// Serves the inputs, one after another, with the given store.
pub fn connected<S: JobStore>(
    alloc: Global,
    store: &mut S,
    inputs: Vec<Vec<u8>>,
    most: usize,
) -> Result<MemoryConnections, CaseFault> {
    let turns = inputs.len() as u64;
    let mut connections = MemoryConnections::new(alloc, inputs, most);
    match serve_all(alloc, store, &mut connections, turns) {
        Ok(()) => Ok(connections),
        Err(_) => Err(CaseFault::Memory),
    }
}

/// Checks that each connection ended correctly and had its expected output.
pub fn check_wanted(
    alloc: Global,
    exchanges: &[Exchange],
    way: &'static str,
    replies: &[Replied],
    may_break: bool,
) -> Result<(), CaseFault> {
    for (exchange, replied) in exchanges.iter().zip(replies) {
        if !is_wanted(&exchange.wanted, replied, may_break) {
            let wanted = wanted_text(alloc, &exchange.wanted)?;
            let came = String::from_utf8_lossy(alloc, replied.written.as_slice())?;
            let line = exchange.line;
            return Err(CaseFault::Differs {
                line,
                way,
                store: NO_STORE,
                wanted,
                came,
            });
        }
    }
    Ok(())
}

fn is_wanted(wanted: &Wanted, replied: &Replied, may_break: bool) -> bool {
    let (came, end) = (replied.written.as_slice(), replied.served.end);
    match wanted {
        Wanted::Any => {
            let ends = end == End::Answered || may_break && end == End::Broken;
            ends && !came.starts_with(b"HTTP/1.1 503")
        }
        Wanted::Nothing => end == End::Broken && came.is_empty(),
        Wanted::Bytes(bytes) => end == End::Answered && came == bytes.as_slice(),
    }
}

fn wanted_text(alloc: Global, wanted: &Wanted) -> Result<String, AllocError> {
    match wanted {
        Wanted::Any => String::from_str(alloc, "any reply but 503"),
        Wanted::Nothing => String::from_str(alloc, "nothing"),
        Wanted::Bytes(bytes) => String::from_utf8_lossy(alloc, bytes.as_slice()),
    }
}

/// Checks that each connection had the same output as in the first run.
pub fn check_same(
    alloc: Global,
    exchanges: &[Exchange],
    way: &'static str,
    first: &[Replied],
    replies: &[Replied],
) -> Result<(), CaseFault> {
    for (exchange, (first, replied)) in exchanges.iter().zip(first.iter().zip(replies)) {
        let (wanted, came) = (first.written.as_slice(), replied.written.as_slice());
        check_bytes(alloc, exchange.line, way, wanted, came)?;
        if first.served != replied.served {
            return Err(CaseFault::Form {
                line: exchange.line,
            });
        }
    }
    Ok(())
}
