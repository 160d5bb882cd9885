//! Arrays for the first bytes of connections. They are reserved before a connection is accepted, so
//! reading and testing a head allocates nothing.
ghost use Rattle.std.specs.Prelude.{◌≡◌, ◌≤◌, [], IfOk, vec_capacity};

use http_messages::MOST_HEAD;
use std::alloc::{AllocError, Global};

/// An array for the first bytes of a connection. It holds as many bytes as a head may have.
#[derive(Drop)]
pub(crate) struct Front {
    pub bytes: Vec<u8>,
    ghost reserved: { 8192 ≤ vec_capacity bytes },
}

impl Front {
    ghost use Rattle.std.specs.Prelude.{◌≡◌, ◌≤◌, [], IfOk, vec_capacity};

    /// Reserves an empty array.
    ///
    /// # Errors
    ///
    /// Returns `AllocError` if the allocation fails.
    pub(crate) fn reserve(alloc: Global) -> Result<Front, AllocError>
        ensures { IfOk result (λ front. front.bytes.items ≡ []) }
    {
        let bytes = Vec::with_capacity(alloc, MOST_HEAD)?;
        Ok(Front { bytes })
    }

    /// Reserves `count` empty arrays.
    ///
    /// # Errors
    ///
    /// Returns `AllocError` if an allocation fails.
    pub(crate) fn reserve_all(alloc: Global, count: usize) -> Result<Vec<Front>, AllocError> {
        let mut fronts = Vec::with_capacity(alloc, count)?;
        for _ in 0..count {
            fronts.push(Front::reserve(alloc)?)?;
        }
        Ok(fronts)
    }

    /// Removes the bytes and returns the array.
    pub(crate) fn cleared(mut self) -> Front
        ensures { result.bytes.items ≡ [] }
    {
        self.bytes.clear();
        self
    }
}
