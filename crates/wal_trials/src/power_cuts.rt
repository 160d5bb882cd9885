//! The power fails at each call of either file: within commits, a checkpoint, and commits after one
//! that found the disk full. No WAL that is left counts as damaged, nor does the WAL of a later run.
use crate::runs::{Ended, Faults, Left, MANY_CALLS, NO_FAULTS, run_over};
use std::alloc::Global;
use std::process::Abort;
use std::test::Fail;

// Checks what power failures may leave after a run with `faults`.
fn check_ended(rt: &impl Abort, alloc: Global, ended: &Ended, faults: Faults) -> Result<(), Fail> {
    let seed = faults.log_calls ^ faults.db_calls;
    for odds in [0, 1, 3] {
        let look = ended.left(alloc, odds, seed)?.look(alloc)?;
        assert_eq!(rt; look.lost, 0, "{seed} {odds}");
    }
    Ok(())
}

// Checks what a run without faults leaves over the files that a power failure left.
fn check_next_run(rt: &impl Abort, alloc: Global, ended: &Ended, seed: u64) -> Result<(), Fail> {
    let left = ended.left(alloc, 2, seed)?;
    let next = run_over(alloc, &left, NO_FAULTS)?;
    assert!(rt; next.is_done, "{seed}");
    assert_eq!(rt; next.left(alloc, 4, 0)?.look(alloc)?.lost, 0, "{seed}");
    Ok(())
}

// Stops the WAL, or otherwise the database file, at a different call in each run, and checks every
// run.
fn check_stops(rt: &impl Abort, alloc: Global, is_log: bool) -> Result<(), Fail> {
    for calls in 0..MANY_CALLS {
        let mut faults = NO_FAULTS;
        if is_log {
            faults.log_calls = calls;
        } else {
            faults.db_calls = calls;
        }
        let ended = run_over(alloc, &Left::nothing(alloc), faults)?;
        check_ended(rt, alloc, &ended, faults)?;
        check_next_run(rt, alloc, &ended, calls)?;
        if ended.is_done {
            return Ok(());
        }
    }
    Err(Fail::new("each run stopped"))
}

#[test]
fn a_power_failure_at_a_call_of_the_wal_damages_nothing(rt: HostRuntime) -> Result<(), Fail> {
    check_stops(&rt, rt.alloc(), true)
}

#[test]
fn a_power_failure_at_a_call_of_the_database_damages_nothing(rt: HostRuntime) -> Result<(), Fail> {
    check_stops(&rt, rt.alloc(), false)
}

// The WAL stops some calls after the write that found the disk full, or not at all.
#[test]
fn a_power_failure_after_a_full_disk_damages_nothing(rt: HostRuntime) -> Result<(), Fail> {
    let alloc = rt.alloc();
    for log_writes in 0..MANY_CALLS {
        let mut is_full = false;
        for calls in [2, 6, 12, MANY_CALLS] {
            let faults = Faults {
                log_calls: log_writes.saturating_add(calls),
                log_writes,
                ..NO_FAULTS
            };
            let ended = run_over(alloc, &Left::nothing(alloc), faults)?;
            check_ended(&rt, alloc, &ended, faults)?;
            is_full = ended.was_full();
        }
        if !is_full {
            assert!(rt; log_writes > 20, "{log_writes}");
            return Ok(());
        }
    }
    Err(Fail::new("each run found the disk full"))
}
