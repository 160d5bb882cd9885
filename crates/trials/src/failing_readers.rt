//! A source of bytes that fails, and a source that counts its calls.
use wire::{ByteSource, Pieces};

/// A source of bytes with a read that fails once. Later reads would return the remaining bytes.
#[derive(Drop)]
pub(crate) struct Failing<'a> {
    front: Pieces<'a>,
    others: Pieces<'a>,
    has_failed: bool,
}

impl<'a> Failing<'a> {
    /// Creates a source that returns `front`, fails once, and then returns `others`, at most `most`
    /// bytes per call.
    pub(crate) fn new(front: &'a [u8], others: &'a [u8], most: usize) -> Failing<'a> {
        Failing {
            front: Pieces::new(front, most),
            others: Pieces::new(others, most),
            has_failed: false,
        }
    }
}

impl ByteSource for Failing<'_> {
    ghost use Rattle.std.specs.Prelude.{None, false};

    ghost brings = { λ _. None };

    ghost cut = { λ _. false };

    fn bring(&mut self, buf: &mut [u8]) -> usize {
        if self.has_failed {
            return self.others.bring(buf);
        }
        let count = self.front.bring(buf);
        self.has_failed = count == 0;
        count
    }

    fn is_cut(&self) -> bool {
        false
    }
}

/// A source of bytes that counts its calls.
#[derive(Drop)]
pub(crate) struct Counted<'a> {
    pieces: Pieces<'a>,
    /// The number of calls.
    pub(crate) asked: usize,
}

impl<'a> Counted<'a> {
    /// Creates a source that returns `bytes`, at most `most` bytes per call.
    pub(crate) fn new(bytes: &'a [u8], most: usize) -> Counted<'a> {
        Counted {
            pieces: Pieces::new(bytes, most),
            asked: 0,
        }
    }
}

impl ByteSource for Counted<'_> {
    ghost use Rattle.std.specs.Prelude.{Some, false};
    ghost use Rattle.wire.specs.PieceBytes.{bytes_of};

    ghost brings = { λ c. Some (bytes_of c.pieces) };

    ghost cut = { λ _. false };

    fn bring(&mut self, buf: &mut [u8]) -> usize {
        self.asked = self.asked.saturating_add(1);
        self.pieces.bring(buf)
    }

    fn is_cut(&self) -> bool {
        self.pieces.is_cut()
    }
}
