//! Tests of the messages that a driver sends to a port: the address, the time limits, the size of
//! the response, and the pauses before a message is sent again.
use crate::fake::{Fake, Floor, Step, millis};
use feeding::Exchange;
use loopback::Port;
use std::alloc::Global;
use std::io::ErrorKind;
use std::net::{Ipv4Addr, SocketAddr, SocketAddrV4};
use std::process::Abort;
use std::test::Fail;
use std::time::Duration;

const MESSAGE: &[u8] = b"POST /c/m1/1 HTTP/1.1\r\n\r\n";

const REPLY: &[u8] = b"HTTP/1.1 200 OK\r\n\r\n{}";

// Performs an exchange. Checks whether the whole response arrives or nothing, and the time limits
// of the last write and the last read, in milliseconds.
fn check(
    rt: &impl Abort,
    alloc: Global,
    floor: &Floor,
    is_whole: bool,
    waits: (Option<u128>, Option<u128>),
) -> Result<(), Fail> {
    let fake = Fake(floor);
    let came = Port::new(&fake, alloc, 8807).exchange(MESSAGE)?;
    assert_eq!(rt; came.is_some(), is_whole);
    let is_reply = came.is_some_and(|came| came.as_slice() == REPLY);
    assert_eq!(rt; is_reply, is_whole);
    assert_eq!(rt;
        (
            millis(floor.write_wait.get()),
            millis(floor.read_wait.get())
        ),
        waits
    );
    Ok(())
}

#[test]
fn a_message_goes_whole_to_a_port_of_this_machine(rt: HostRuntime) -> Result<(), Fail> {
    let floor = Floor::new(rt.alloc(), REPLY, 0);
    check(&rt, rt.alloc(), &floor, true, (Some(60_000), Some(60_000)))?;
    assert_eq!(rt; floor.take_written().as_slice(), MESSAGE);
    let minute = Duration::from_secs(60);
    let server = SocketAddr::V4(SocketAddrV4::new(Ipv4Addr::new(127, 0, 0, 1), 8807));
    assert_eq!(rt; floor.connected.get(), Some((server, minute)));
    Ok(())
}

// The time to connect is part of the minute.
#[test]
fn the_minute_begins_before_the_connection(rt: HostRuntime) -> Result<(), Fail> {
    let floor = Floor::new(rt.alloc(), REPLY, 0);
    floor.connect_takes.set(2000);
    check(&rt, rt.alloc(), &floor, true, (Some(58_000), Some(58_000)))
}

// Each row has the results of the writes and the reads of an exchange, whether the whole response
// arrives or nothing, and the time limits of the last write and the last read, in milliseconds.
#[test]
fn an_exchange_has_a_minute(rt: HostRuntime) -> Result<(), Fail> {
    const SIGNAL: Step = Step::Fails(1000, ErrorKind::Interrupted);
    const RESET: Step = Step::Fails(0, ErrorKind::ConnectionReset);
    const LATE: Step = Step::Late(2000, 3);
    const LATER: Step = Step::Late(30_000, 1);
    const NEVER: Step = Step::Fails(58_000, ErrorKind::WouldBlock);
    const ALL: Step = Step::Late(60_000, 1);
    let ways: [(&'static [Step], &'static [Step], bool, u128, Option<u128>); 9] = [
        (&[LATE], &[], true, 58_000, Some(58_000)),
        (&[], &[LATE, LATER], true, 60_000, Some(28_000)),
        (
            &[SIGNAL, LATE],
            &[SIGNAL, LATE, SIGNAL],
            true,
            57_000,
            Some(53_000),
        ),
        // A write that fails halfway, and a write that accepts nothing.
        (&[LATE, RESET], &[], false, 58_000, None),
        (&[LATE, Step::Bytes(0)], &[], false, 58_000, None),
        // A response that is cut off.
        (&[], &[LATE, RESET], false, 60_000, Some(58_000)),
        (&[], &[LATE, NEVER], false, 60_000, Some(58_000)),
        // No read or write is tried after the time is over.
        (&[], &[ALL], false, 60_000, Some(60_000)),
        (&[ALL], &[], false, 60_000, None),
    ];
    for (writes, reads, is_whole, write_wait, read_wait) in ways {
        let floor = Floor::new(rt.alloc(), REPLY, 0);
        floor.writes.set(writes);
        floor.reads.set(reads);
        let waits = (Some(write_wait), read_wait);
        check(&rt, rt.alloc(), &floor, is_whole, waits)?;
    }
    Ok(())
}

// The responses to a driver are far smaller.
#[test]
fn a_reply_of_more_than_8192_bytes_is_nothing(rt: HostRuntime) -> Result<(), Fail> {
    for (size, came) in [
        (0, Some(0)),
        (8192, Some(8192)),
        (8193, None),
        (100_000, None),
    ] {
        let floor = Floor::new(rt.alloc(), b"", size);
        let fake = Fake(&floor);
        let reply = Port::new(&fake, rt.alloc(), 8807).exchange(MESSAGE)?;
        assert_eq!(rt; reply.map(|reply| reply.len()), came, "{size}");
        // At most one byte more than the limit is read.
        assert_eq!(rt; size.saturating_sub(floor.behind.get()), size.min(8193));
    }
    Ok(())
}

#[test]
fn ten_tries_last_a_minute(rt: HostRuntime) -> Result<(), Fail> {
    let pauses = [0, 10, 40, 160, 640, 2560, 10_240, 16_000, 16_000, 16_000];
    let floor = Floor::new(rt.alloc(), REPLY, 0);
    floor.faults.set((10, ErrorKind::ConnectionRefused));
    let fake = Fake(&floor);
    let mut port = Port::new(&fake, rt.alloc(), 8807);
    for pause in pauses {
        let begun = floor.passed();
        assert_eq!(rt; port.exchange(MESSAGE)?, None);
        assert_eq!(rt; floor.passed().saturating_sub(begun), pause);
    }
    assert_eq!(rt; floor.passed(), 61_650);
    // A different message is sent without a pause, and its own pauses start with the shortest.
    for pause in [0, 10, 40] {
        let begun = floor.passed();
        port.exchange(b"another")?;
        assert_eq!(rt; floor.passed().saturating_sub(begun), pause);
    }
    Ok(())
}
