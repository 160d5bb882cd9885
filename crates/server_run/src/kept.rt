//! A reader and a writer that keep the first bytes that pass through them.
ghost use Rattle.std.specs.Prelude.{◌≡◌, None};
ghost use Rattle.server_run.specs.Bytes.{KeepsRead, KeepsReply, KeepsWritten, reply_by};

use http_messages::ByteSource;
use server::{Beginning, End};
use std::io::{self, Write};
use std::marker::{Brand, PhantomData};

/// The maximum number of bytes that are kept of a request.
pub const REQUEST_BYTES: usize = 256;

/// The maximum number of bytes that are kept of a response.
pub const REPLY_BYTES: usize = 512;

/// The state of the reader and the writer of a connection at its start, which contracts refer to.
/// Each connection chooses its own.
pub trait Start {
    ghost use Rattle.std.specs.Prelude.{ℕ, List, Option};

    /// The bytes that the reader brings, if they are known.
    ghost brings: { Option (List ℕ) };

    /// The contents of the writer, if they are known.
    ghost contents: { Option (List ℕ) };
}

impl Start for Brand {
    ghost use Rattle.std.specs.Prelude.{None};

    ghost brings = { None };

    ghost contents = { None };
}

/// A reader that keeps the first bytes that it brings.
pub struct KeepingReader<I: ByteSource, K: Start> {
    inner: I,
    first: Beginning<REQUEST_BYTES>,
    start: PhantomData<K>,
    ghost kept: { ∥ KeepsRead K.brings (I.brings inner) first ∥₁ },
}

impl<I: ByteSource, K: Start> KeepingReader<I, K> {
    /// Creates a reader that keeps the first bytes that `inner` brings from now on.
    pub fn new(inner: I) -> KeepingReader<I, K>
        requires { I.brings inner ≡ K.brings }
        ensures { result.inner ≡ inner }
    {
        KeepingReader {
            inner,
            first: Beginning::new(),
            start: PhantomData,
        }
    }

    /// Returns the inner reader and the first bytes that it brought.
    pub fn into_parts(self) -> (I, Beginning<REQUEST_BYTES>)
        ensures inner { result.0 ≡ self.inner }
        ensures kept { ∥ KeepsRead K.brings (I.brings result.0) result.1 ∥₁ }
    {
        let KeepingReader {
            inner,
            first,
            start: _,
        } = self;
        (inner, first)
    }
}

impl<I: ByteSource, K: Start> ByteSource for KeepingReader<I, K> {
    ghost brings = { λ r. I.brings r.inner };

    ghost cut = { λ r. I.cut r.inner };

    fn bring(&mut self, buf: &mut [u8]) -> usize {
        let count = self.inner.bring(buf);
        self.first.add(&buf[..count]);
        count
    }

    fn is_cut(&self) -> bool {
        self.inner.is_cut()
    }
}

/// A writer that keeps the first bytes that it accepted. It also keeps what they would be if the
/// last write had accepted all of its bytes.
pub struct KeepingWriter<W: Write, K: Start> {
    inner: W,
    taken: Beginning<REPLY_BYTES>,
    offered: Beginning<REPLY_BYTES>,
    start: PhantomData<K>,
    ghost kept: { ∥ KeepsWritten K.contents (W.contents inner) taken offered ∥₁ },
}

impl<W: Write, K: Start> KeepingWriter<W, K> {
    /// Creates a writer that keeps the first bytes that `inner` accepts from now on.
    pub fn new(inner: W) -> KeepingWriter<W, K>
        requires { W.contents inner ≡ K.contents }
        ensures { result.inner ≡ inner }
    {
        KeepingWriter {
            inner,
            taken: Beginning::new(),
            offered: Beginning::new(),
            start: PhantomData,
        }
    }

    /// Returns the inner writer and the first bytes of the response of a connection that ended with
    /// `end`. If a write failed, they may include bytes of this write that were not accepted.
    pub fn into_parts(self, end: End) -> (W, Beginning<REPLY_BYTES>)
        ensures inner { result.0 ≡ self.inner }
        ensures reply { result.1 ≡ reply_by end self.taken self.offered }
        ensures kept { ∥ KeepsReply end K.contents (W.contents result.0) result.1 ∥₁ }
    {
        let KeepingWriter {
            inner,
            taken,
            offered,
            start: _,
        } = self;
        match end {
            End::Answered | End::Broken => (inner, taken),
            End::WriteFailed => (inner, offered),
        }
    }
}

impl<W: Write, K: Start> Write for KeepingWriter<W, K> {
    ghost use Rattle.std.specs.Prelude.{◌≡◌, ◌++◌, take};
    ghost use Rattle.std.specs.Io.{WritesAtMost};
    ghost use Rattle.std.specs.Io.KnownBytes.{WriteAppends};
    ghost use Rattle.server_run.specs.Bytes.{taken_after};

    ghost contents = { λ w. W.contents w.inner };

    // The trait has the first two clauses. The others say which bytes are kept.
    fn write(&mut self, buf: &[u8]) -> io::Result<usize>
        ensures bound { WritesAtMost result buf.now }
        ensures bytes { WriteAppends (W.contents self.old.inner) (W.contents self.new.inner) result
            buf.now }
        ensures offered { self.new.offered ≡ take 512 (self.old.taken ++ buf.now) }
        ensures taken { self.new.taken ≡ taken_after self.old.taken buf.now result }
    {
        let mut offered = Beginning::new();
        offered.add(self.taken.as_slice());
        offered.add(buf);
        self.offered = offered;
        let count = self.inner.write(buf)?;
        self.taken.add(&buf[..count]);
        Ok(count)
    }

    fn flush(&mut self) -> io::Result<()> {
        self.inner.flush()
    }
}
