//! Tests of reads that fail, and of the number of reads.
use crate::again::{MayBeOutOfMemory, at_last};
use crate::exchanges::{UNAVAILABLE, inputs, name};
use crate::failing_readers::{Counted, Failing};
use crate::failing_writers::Limited;
use drill::serve_inputs;
use job_facts::JobStore;
use list_store::ListStore;
use server::{Connections, End, NextFault, Served, serve_one};
use std::alloc::Global;
use std::process::Abort;
use std::test::Fail;
use wire::{AskFault, ByteSource, Reading, read_message};

// A `product` request of the worked examples, with a head of 66 bytes and a body of 63 bytes.
const PRODUCT: &[u8] =
    b"POST /c/office/1 HTTP/1.1\r\nHost: localhost\r\nContent-Length: 63\r\n\r\n{\"do\":\"product\",\"product\":\"P1\",\"max\":255,\"low\":0,\"check\":false}";

// Returns the number of reads for `PRODUCT`, which arrives in pieces of at most `most` bytes.
fn asked(alloc: Global, most: usize) -> Result<usize, AskFault> {
    let mut incoming = Counted::new(PRODUCT, most);
    match read_message(alloc, &mut incoming) {
        Reading::Message(_) => Ok(incoming.asked),
        Reading::Memory => Err(AskFault::Memory),
        _ => Ok(0),
    }
}

#[test]
fn no_byte_after_a_message_is_read(rt: HostRuntime) -> Result<(), Fail> {
    let table = [
        (1, 129),
        (2, 65),
        (7, 19),
        (65, 2),
        (66, 2),
        (67, 2),
        (8192, 1),
    ];
    for (most, calls) in table {
        assert_eq!(rt; at_last!(asked(rt.alloc(), most)), Ok(calls), "at {most}");
    }
    // A refused head is read only to its end.
    let head = b"GET /batch/B9 HTTP/1.1\r\nContent-Length: 16777217\r\n\r\n";
    let mut incoming = Counted::new(head, 1);
    assert!(rt;
        matches!(
            &read_message(rt.alloc(), &mut incoming),
            Reading::Refused(_)
        )
    );
    assert_eq!(rt; incoming.asked, head.len());
    Ok(())
}

// Serves a connection whose read fails after `size` bytes.
fn served_in_part(alloc: Global, store: &mut ListStore, size: usize) -> (Served, Limited) {
    let (front, others) = PRODUCT.split_at_checked(size).unwrap_or((PRODUCT, b""));
    let mut writer = Limited::new(512, 512);
    let served = serve_one(
        alloc,
        store,
        &mut Failing::new(front, others, 5),
        &mut writer,
    );
    (served, writer)
}

// Checks that nothing is written if a read fails after `size` bytes.
fn check_broken(rt: &impl Abort, alloc: Global, store: &mut ListStore, size: usize) {
    let (mut served, mut writer) = served_in_part(alloc, store, size);
    if writer.taken() == UNAVAILABLE {
        (served, writer) = served_in_part(alloc, store, size);
    }
    let (end, decided) = (End::Broken, false);
    assert_eq!(rt; served, Served { end, decided }, "at {size}");
    assert!(rt; writer.taken().is_empty(), "at {size}");
}

// Checks that neither the product nor a reply is stored.
fn check_empty(rt: &impl Abort, store: &mut ListStore, size: usize) -> Result<(), Fail> {
    let (office, code) = (name("office")?, name("P1")?);
    assert!(rt; at_last!(store.product(&code))?.is_none(), "at {size}");
    assert!(rt; at_last!(store.kept(&office, 1))?.is_none(), "at {size}");
    Ok(())
}

// A later read would return the remaining bytes. Nothing is written, and neither the product nor a
// reply is stored.
#[test]
fn a_message_with_a_failed_read_changes_nothing(rt: HostRuntime) -> Result<(), Fail> {
    let mut store = ListStore::new(rt.alloc());
    for size in 0..PRODUCT.len() {
        check_broken(&rt, rt.alloc(), &mut store, size);
        check_empty(&rt, &mut store, size)?;
    }
    Ok(())
}

// Serves an input, and returns the size of the first piece of the next one. Inputs arrive in pieces
// of at most `most` bytes.
fn first_piece(alloc: Global, most: usize) -> Result<usize, NextFault> {
    let inputs = inputs(alloc, &[b"GET /batch/B9", b"GET /batch/B9"])?;
    let (_, mut connections) = serve_inputs(alloc, inputs, most, 1)?;
    let (mut reader, _) = connections.next()?;
    Ok(reader.bring(&mut [0; 20]))
}

#[test]
fn inputs_arrive_in_pieces(rt: HostRuntime) {
    for (most, count) in [(0, 1), (1, 1), (5, 5), (13, 13), (100, 13)] {
        assert_eq!(rt; at_last!(first_piece(rt.alloc(), most)), Ok(count));
    }
}
