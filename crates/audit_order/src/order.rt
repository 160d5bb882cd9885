//! Sorts rows by their keys.
ghost use Rattle.std.specs.Prelude.{◌≡◌, ℕ, List, OnOk, IsPermutation, filter};
ghost use Rattle.audit_laws.specs.Audited.{AreOrderedBy};
ghost use Rattle.audit_order.specs.Order.{has_key};

use std::alloc::AllocError;

/// A row with a sort key of up to three numbers.
pub trait InOrder {
    ghost key: { Self → List ℕ };

    /// Returns the numbers of the key, most significant first. Unused ones are 0.
    fn key(&self) -> [u64; 3]
        ensures { result ≡ key self.now };
}

/// Sorts `rows` by their keys. Rows with equal keys keep their order.
///
/// # Errors
///
/// Returns `AllocError` if an allocation fails. The rows are then in any order, but none is lost.
pub fn sort_rows<T: InOrder + Drop>(rows: &mut Vec<T>) -> Result<(), AllocError>
    ensures same { IsPermutation rows.old.items rows.new.items }
    ensures ordered { OnOk result (AreOrderedBy T.key rows.new.items) }
    ensures stable { (key : List ℕ) → filter (has_key T.key key) rows.new.items
        ≡ filter (has_key T.key key) rows.old.items }
{
    rows.sort_by_key(
        |row: &T| -> [u64; 3]
            ensures { result ≡ T.key row.now }
        { row.key() },
    )?;
    Ok(())
}
