//! The bytes of a connection.
ghost use Rattle.std.specs.Prelude.{◌≡◌};
ghost use Rattle.http_messages.specs.PieceBytes.{bytes_of};

/// A source of the bytes of a connection. They arrive in pieces of any size, and a failed read ends
/// them.
pub trait ByteSource {
    ghost use Rattle.std.specs.Prelude.{◌≡◌, ◌<◌, ◌≤◌, ℕ, Bool, List, Option, length, take};
    ghost use Rattle.std.specs.Io.KnownBytes.{Consumes, IsAtEnd};

    /// The remaining bytes, up to the end or the first failed read, if they are known.
    ghost brings: { Self → Option (List ℕ) };

    /// `true` if more bytes arrived but were lost because an allocation failed.
    ghost cut: { Self → Bool };

    /// Copies the next bytes to the start of `buf`, and returns their number. It is 0 only at the
    /// end.
    fn bring(&mut self, buf: &mut [u8]) -> usize
        requires { 0 < length buf.old }
        ensures count { result ≤ length buf.new }
        ensures bytes { Consumes (brings self.old) (brings self.new) (take result buf.new) }
        ensures end { result ≡ 0 → IsAtEnd (brings self.old) }
        ensures cut { cut self.new ≡ cut self.old };

    /// Returns `true` if more bytes arrived but were lost because an allocation failed.
    fn is_cut(&self) -> bool
        ensures { result ≡ cut self.now };
}

/// A connection in memory, whose bytes arrive in pieces of a limited size.
#[derive(Clone, Copy)]
pub struct Pieces<'a> {
    bytes: &'a [u8],
    most: usize,
}

impl<'a> Pieces<'a> {
    /// Creates a connection that brings `bytes` in pieces of at most `most` bytes, or of one byte
    /// if `most` is 0.
    pub fn new(bytes: &'a [u8], most: usize) -> Pieces<'a>
        ensures { bytes_of result ≡ bytes.now }
    {
        Pieces { bytes, most }
    }
}

impl ByteSource for Pieces<'_> {
    ghost use Rattle.std.specs.Prelude.{Some, false};
    ghost use Rattle.http_messages.specs.PieceBytes.{bytes_of};

    ghost brings = { λ p. Some (bytes_of p) };

    ghost cut = { λ _. false };

    fn bring(&mut self, buf: &mut [u8]) -> usize {
        let count = buf.len().min(self.most.max(1)).min(self.bytes.len());
        let (front, rest) = self.bytes.split_at(count);
        buf[..count].copy_from_slice(front);
        self.bytes = rest;
        count
    }

    fn is_cut(&self) -> bool {
        false
    }
}
