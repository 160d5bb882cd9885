//! Helpers of tests: names, a store of lists with some contents, and the inputs of connections.
ghost use Rattle.std.specs.Prelude.{◌≡◌};

use crate::again::{MayBeOutOfMemory, at_last};
use job_facts::{Change, Entry, JobStore, Lot, NewBatch};
use list_store::ListStore;
use std::alloc::{AllocError, Global};
use std::test::Fail;
use store_data::{Name, Product};

/// The response if the store or an allocation fails.
pub(crate) const UNAVAILABLE: &[u8] =
    b"HTTP/1.1 503 Service Unavailable\r\nContent-Type: application/json\r\nContent-Length: 32\r\nConnection: close\r\n\r\n{\"code\":503,\"refused\":\"storage\"}";

/// The report of the batch in a store that `stocked` returns.
pub(crate) const REPORT: &str = "batch B1
product P1
state open
record R1 waiting 0 -
records            1
waiting            1
running            0
failed             0
withdrawn          0
good               0
sessions           0
spoiled            0
";

/// Converts `text` to a name.
pub(crate) fn name(text: &str) -> Result<Name, Fail> {
    Ok(Name::new(text.as_bytes()).ok_or("no name")?)
}

// Returns a reply of `client` with the request number `number`.
fn entry(client: &Name, number: u64) -> Entry<'_>
    ensures { result.number ≡ number }
{
    Entry {
        client,
        number,
        ask: b"ask",
        status: 200,
        body: b"body",
    }
}

/// Returns a store with the product P1, the lot L1 of three blanks from serial 1000, and the batch
/// B1 with one record and one grouping.
pub(crate) fn stocked(alloc: Global) -> Result<ListStore, Fail> {
    let (office, code, lot, batch) = (name("office")?, name("P1")?, name("L1")?, name("B1")?);
    let product = Product {
        code,
        max: 255,
        low: 0,
        check: false,
    };
    let lot = Lot {
        name: lot,
        product: code,
        first: 1000,
        count: 3,
    };
    let batch = NewBatch {
        number: 1,
        name: batch,
        product,
        records: 1,
        raw: b"record,aid,rank,enc,tol,dgi\nR1,F00000000101,1,0,0,0101027000\n",
    };
    let (product, lot) = (Change::AddsProduct { product }, Change::AddsLot { lot });
    let batch = Change::AddsBatch { batch };
    let mut store = ListStore::new(alloc);
    at_last!(store.commit(&entry(&office, 1), &product))?;
    at_last!(store.commit(&entry(&office, 2), &lot))?;
    at_last!(store.commit(&entry(&office, 3), &batch))?;
    Ok(store)
}

/// Returns copies of `texts`, one for each connection.
pub(crate) fn inputs(alloc: Global, texts: &[&[u8]]) -> Result<Vec<Vec<u8>>, AllocError> {
    let mut inputs = Vec::with_capacity(alloc, texts.len())?;
    for text in texts {
        inputs.push(text.to_vec(alloc)?)?;
    }
    Ok(inputs)
}
