//! Repeats calls that run out of memory. A test therefore has the same result if any single
//! allocation fails, even one of its set-up. `bench/run refused` makes each allocation fail in
//! turn.
use job_facts::{Failed, StoreFault};
use reports::AccountFault;
use server::NextFault;
use text_io::{RunStop, StreamFault};
use wire::AskFault;

/// A fault that can be out of memory.
pub(crate) trait MayBeOutOfMemory {
    fn is_memory(&self) -> bool;
}

impl MayBeOutOfMemory for StoreFault {
    fn is_memory(&self) -> bool {
        *self == StoreFault::Memory
    }
}

impl MayBeOutOfMemory for Failed<StoreFault> {
    fn is_memory(&self) -> bool {
        self.fault.is_memory()
    }
}

impl MayBeOutOfMemory for AccountFault {
    fn is_memory(&self) -> bool {
        *self == AccountFault::Store(StoreFault::Memory)
    }
}

impl MayBeOutOfMemory for AskFault {
    fn is_memory(&self) -> bool {
        *self == AskFault::Memory
    }
}

impl MayBeOutOfMemory for NextFault {
    fn is_memory(&self) -> bool {
        *self == NextFault::Memory
    }
}

impl<F> MayBeOutOfMemory for RunStop<F> {
    fn is_memory(&self) -> bool {
        matches!(self, RunStop::Stream(StreamFault::Memory))
    }
}

/// Evaluates a call, and again if it runs out of memory. Returns the last result.
macro_rules! at_last {
    ($call:expr) => {
        match $call {
            Err(fault) if fault.is_memory() => $call,
            answer => answer,
        }
    };
}

pub(crate) use at_last;
