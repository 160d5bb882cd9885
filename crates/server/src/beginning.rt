//! The first bytes of a text, stored without an allocation.
ghost use Rattle.std.specs.Prelude.{◌≡◌, ◌+◌, ◌≤◌, ◌++◌, [], length, take};

use std::marker::Model;

/// The first bytes of everything that was added, at most `N`. Its model is the list of these bytes.
#[derive(Drop)]
pub struct Beginning<const N: usize> {
    bytes: [u8; N],
    len: usize,
}

impl<const N: usize> Model for Beginning<N> {
    ghost use Rattle.std.specs.Prelude.{◌≤◌, List, ℕ, take};

    ghost Value = { List ℕ };

    ghost view = { λ b. take b.len b.bytes };

    ghost invariant = { λ b. b.len ≤ N };
}

impl<const N: usize> Beginning<N> {
    /// Creates an empty value.
    pub fn new() -> Beginning<N>
        ensures { result ≡ [] }
    {
        Beginning {
            bytes: [0; N],
            len: 0,
        }
    }

    /// Adds the bytes of `text` that still fit.
    pub fn add(&mut self, text: &[u8])
        ensures { self.new ≡ take N (self.old ++ text.now) }
    {
        let count = (N - self.len).min(text.len());
        let bytes = &mut self.bytes[..];
        self.len = put(bytes, self.len, &text[..count]);
    }

    /// Returns the bytes.
    pub fn as_slice(&self) -> &[u8]
        ensures value { result.now ≡ self.now }
        ensures few { length self.now ≤ N }
    {
        &self.bytes[..self.len]
    }
}

// Copies `text` to index `at` of `bytes`, and returns the index after it.
fn put(bytes: &mut [u8], at: usize, text: &[u8]) -> usize
    requires { at + length text.now ≤ length bytes.old }
    ensures text { take result bytes.new ≡ take at bytes.old ++ text.now }
    ensures end { result ≡ at + length text.now }
{
    let end = at + text.len();
    bytes[at..end].copy_from_slice(text);
    end
}
