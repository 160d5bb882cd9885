//! The reasons why a drill stops.
ghost use Rattle.std.specs.Prelude.{◌≡◌};
ghost use Rattle.drill.specs.Ends.{unopened};

use job_facts::StoreFault;
use std::error::Error;
use std::fmt;
use text_io::{RunStop, StreamFault};

/// A fault that only a drill has.
#[derive(Clone, Copy, Debug, PartialEq, Eq)]
pub enum DrillFault {
    /// This line, counted from 1, is malformed or names something that doesn't exist.
    BadLine(u64),
    /// The store couldn't be opened.
    Storage,
}

impl fmt::Display for DrillFault {
    ghost use Rattle.std.specs.Prelude.{Some};
    ghost use Rattle.drill.specs.Ends.{fault_text};

    ghost output = { λ fault. Some (fault_text fault) };

    fn fmt<W: fmt::Write>(&self, f: &mut fmt::Formatter<W>) -> fmt::Result {
        match self {
            DrillFault::BadLine(line) => write!(f, "bad line {line}"),
            DrillFault::Storage => f.write_str("the store did not open"),
        }
    }
}

impl Error for DrillFault {}

/// A reason why a drill stopped.
pub type DrillStop = RunStop<DrillFault>;

/// Returns the reason to stop if the store can't be opened because of `fault`.
pub fn unopened(fault: StoreFault) -> DrillStop
    ensures { result ≡ unopened fault }
{
    match fault {
        StoreFault::Memory => RunStop::Stream(StreamFault::Memory),
        StoreFault::Device | StoreFault::Full => RunStop::Own(DrillFault::Storage),
    }
}
