//! A writer that fails. It allocates nothing, so it fails only if a test wants it to.
use std::io::{self, ErrorKind, Write};

/// A writer of limited capacity, at most 512 bytes. A write fails when the writer is full.
#[derive(Clone, Copy)]
pub(crate) struct Limited {
    bytes: [u8; 512],
    taken: usize,
    most: usize,
    at_a_call: usize,
}

impl Limited {
    /// Creates a writer that accepts `most` bytes, at most `at_a_call` per call.
    pub(crate) fn new(most: usize, at_a_call: usize) -> Limited {
        Limited {
            bytes: [0; 512],
            taken: 0,
            most,
            at_a_call,
        }
    }

    /// Returns the bytes that were written.
    pub(crate) fn taken(&self) -> &[u8] {
        self.bytes.get(..self.taken).unwrap_or(&[])
    }
}

impl Write for Limited {
    fn write(&mut self, buf: &[u8]) -> io::Result<usize> {
        let end = self.bytes.len().min(self.most);
        let Some(room) = self.bytes.get_mut(self.taken..end) else {
            return Err(io::Error::from(ErrorKind::BrokenPipe));
        };
        let count = buf.len().min(self.at_a_call).min(room.len());
        if count == 0 && !buf.is_empty() {
            return Err(io::Error::from(ErrorKind::BrokenPipe));
        }
        room[..count].copy_from_slice(&buf[..count]);
        self.taken += count;
        Ok(count)
    }

    fn flush(&mut self) -> io::Result<()> {
        Ok(())
    }
}
