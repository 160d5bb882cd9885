//! A lemma about names. The function does nothing: its contract is a fact for the proofs of its
//! callers.
ghost use Rattle.std.specs.Prelude.{IsTrue};
ghost use Rattle.store_data.specs.Name.{is_name};

use crate::name::Name;

/// Lemma: the characters of `name` satisfy `is_name`.
pub fn is_a_name(name: &Name)
    ensures { IsTrue (is_name name.now) }
{
    let _ = name.bytes();
}
