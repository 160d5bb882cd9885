//! A set of keys in order of first appearance.
ghost use Rattle.std.specs.Prelude.{◌≡◌, [], Some, bytes_eq, length, slice_get, IfOk, IfSome, OnOk};
ghost use Rattle.std.specs.List.{position_or_len};
ghost use Rattle.store_data.specs.Groups.{with_key};

use crate::short::ShortBytes;
use indexmap::IndexSet;
use std::alloc::{AllocError, Global};
use std::marker::Model;

/// A set of keys in order of first appearance.
#[derive(Drop)]
pub struct Keys {
    keys: IndexSet<ShortBytes<32>>,
}

impl Model for Keys {
    ghost use Rattle.std.specs.Prelude.{List, ℕ};
    ghost use Rattle.store_data.specs.Groups.{Distinct};

    ghost Value = { List (List ℕ) };

    ghost view = { λ k. k.keys.keys };

    ghost invariant = { λ k. Distinct k.keys.keys };
}

impl Keys {
    /// Creates an empty set. Allocates nothing.
    pub fn new(alloc: Global) -> Keys
        ensures { result ≡ [] }
    {
        Keys {
            keys: IndexSet::new(alloc),
        }
    }

    /// Returns the number of keys.
    pub fn len(&self) -> usize
        ensures { result ≡ length self.now }
    {
        self.keys.len()
    }

    /// Returns the position of `key`. If the set doesn't contain `key`, appends it.
    ///
    /// Items with the same key are usually adjacent, so `key` is compared with the last key before
    /// it is hashed.
    ///
    /// # Errors
    ///
    /// Returns `AllocError` if an allocation fails.
    pub fn place_of(&mut self, key: ShortBytes<32>) -> Result<usize, AllocError>
        ensures keys { OnOk result (self.new ≡ with_key self.old key) }
        ensures place { IfOk result (λ place. place ≡ position_or_len (bytes_eq key) self.old) }
    {
        if let Some(place) = self.last_place(&key) {
            return Ok(place);
        }
        let (place, _) = self.keys.insert_full(key)?;
        Ok(place)
    }

    // Returns the last position if the last key is `key`.
    fn last_place(&self, key: &ShortBytes<32>) -> Option<usize>
        ensures { IfSome result (λ place. slice_get self.now place ≡ Some key.now) }
    {
        let place = self.len().checked_sub(1)?;
        if self.keys.get_index(place)? == key {
            Some(place)
        } else {
            None
        }
    }
}
