//! Reads a complete input.
ghost use Rattle.std.specs.Prelude.{◌≡◌, ℕ, List, IfOk};
ghost use Rattle.std.specs.IoError.{error_kind};
ghost use Rattle.text_io.specs.Inputs.{Agrees, IsWithin, fault_of, fault_text};

use std::alloc::Global;
use std::error::Error;
use std::fmt;
use std::io::{self, ErrorKind, Read};

/// The maximum size of a batch file and of a request's body, in bytes (this project's profile).
pub const MOST_INPUT: u32 = 16_777_216;

/// A reason why an input couldn't be read.
#[derive(Clone, Copy, Debug, PartialEq, Eq)]
pub enum ReadFault {
    /// A read failed.
    Failed,
    /// An allocation failed.
    Memory,
}

impl From<io::Error> for ReadFault {
    ghost from_gives = { λ error fault. fault ≡ fault_of (error_kind error) };

    fn from(error: io::Error) -> ReadFault {
        if error.kind() == ErrorKind::OutOfMemory {
            ReadFault::Memory
        } else {
            ReadFault::Failed
        }
    }
}

impl fmt::Display for ReadFault {
    ghost use Rattle.std.specs.Prelude.{Some};

    ghost output = { λ fault. Some (fault_text fault) };

    fn fmt<W: fmt::Write>(&self, f: &mut fmt::Formatter<W>) -> fmt::Result {
        match self {
            ReadFault::Failed => f.write_str("the reader failed"),
            ReadFault::Memory => f.write_str("out of memory"),
        }
    }
}

impl Error for ReadFault {}

/// Reads `reader` to its end.
///
/// # Errors
///
/// - `Failed`: a read fails.
/// - `Memory`: an allocation fails.
pub fn read_whole<R: Read>(alloc: Global, reader: &mut R) -> Result<Vec<u8>, ReadFault>
    ensures { IfOk result (λ raw. Agrees (R.remaining reader.old) raw.items) }
{
    let mut raw = Vec::new(alloc);
    reader.read_to_end(&mut raw)?;
    Ok(raw)
}

/// Reads `reader` to its end if it has at most `most` bytes. Otherwise it reads `most + 1` bytes
/// and returns `None`.
///
/// # Errors
///
/// - `Failed`: a read fails.
/// - `Memory`: an allocation fails.
pub fn read_within<R: Read>(
    alloc: Global,
    reader: &mut R,
    most: u32,
) -> Result<Option<Vec<u8>>, ReadFault>
    ensures { IfOk result (λ read. (raw : List ℕ)
        × Agrees (R.remaining reader.old) raw × IsWithin most raw read) }
{
    let mut limited = (&mut *reader).take(u64::from(most) + 1);
    let raw = read_whole(alloc, &mut limited)?;
    if raw.len() as u64 > u64::from(most) {
        return Ok(None);
    }
    Ok(Some(raw))
}
