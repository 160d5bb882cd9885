//! The reasons why a run that reads an input and writes an output stops.
use crate::reading::ReadFault;
use crate::writing::WriteFailed;
use std::alloc::AllocError;
use std::error::Error;
use std::fmt;

/// A reason why a run that reads an input and writes an output stopped. `F` is the type of the
/// faults that only this kind of run has.
#[derive(Clone, Copy, Debug, PartialEq, Eq, Drop)]
pub enum RunStop<F> {
    /// A fault of this kind of run.
    Own(F),
    /// A fault of the input, the output or of memory.
    Stream(StreamFault),
}

/// A fault that any run can have.
#[derive(Clone, Copy, Debug, PartialEq, Eq)]
pub enum StreamFault {
    /// A read failed.
    ReadFailed,
    /// A write failed or accepted no bytes.
    WriteFailed,
    /// An allocation failed.
    Memory,
}

impl<F: fmt::Display> fmt::Display for RunStop<F> {
    ghost use Rattle.text_io.specs.Stops.{stop_text};

    ghost output = { stop_text F.output };

    fn fmt<W: fmt::Write>(&self, f: &mut fmt::Formatter<W>) -> fmt::Result {
        match self {
            RunStop::Own(fault) => fmt::Display::fmt(fault, f),
            RunStop::Stream(fault) => fmt::Display::fmt(fault, f),
        }
    }
}

impl fmt::Display for StreamFault {
    ghost use Rattle.std.specs.Prelude.{Some};
    ghost use Rattle.text_io.specs.Stops.{stream_text};

    ghost output = { λ fault. Some (stream_text fault) };

    fn fmt<W: fmt::Write>(&self, f: &mut fmt::Formatter<W>) -> fmt::Result {
        match self {
            StreamFault::ReadFailed => f.write_str("the reader failed"),
            StreamFault::WriteFailed => f.write_str("the writer failed"),
            StreamFault::Memory => f.write_str("out of memory"),
        }
    }
}

impl<F: Error> Error for RunStop<F> {}

impl Error for StreamFault {}

impl<F> From<ReadFault> for RunStop<F> {
    ghost use Rattle.std.specs.Prelude.{◌≡◌};
    ghost use Rattle.text_io.specs.Stops.{stream_fault_of};
    ghost use Rattle.text_io.specs.declared.stop.RunStop.TheVariants.{Stream};

    ghost from_gives = { λ fault stop. stop ≡ Stream (stream_fault_of fault) };

    fn from(fault: ReadFault) -> RunStop<F> {
        RunStop::Stream(match fault {
            ReadFault::Failed => StreamFault::ReadFailed,
            ReadFault::Memory => StreamFault::Memory,
        })
    }
}

impl<F> From<WriteFailed> for RunStop<F> {
    ghost use Rattle.std.specs.Prelude.{◌≡◌};
    ghost use Rattle.text_io.specs.declared.stop.RunStop.TheVariants.{Stream};
    ghost use Rattle.text_io.specs.declared.stop.StreamFault.TheVariants.{WriteFailed};

    ghost from_gives = { λ _ stop. stop ≡ Stream WriteFailed };

    fn from(_error: WriteFailed) -> RunStop<F> {
        RunStop::Stream(StreamFault::WriteFailed)
    }
}

impl<F> From<AllocError> for RunStop<F> {
    ghost use Rattle.std.specs.Prelude.{◌≡◌};
    ghost use Rattle.text_io.specs.declared.stop.RunStop.TheVariants.{Stream};
    ghost use Rattle.text_io.specs.declared.stop.StreamFault.TheVariants.{Memory};

    ghost from_gives = { λ _ stop. stop ≡ Stream Memory };

    fn from(_error: AllocError) -> RunStop<F> {
        RunStop::Stream(StreamFault::Memory)
    }
}
