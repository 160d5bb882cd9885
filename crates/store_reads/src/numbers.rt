//! The limit of integers in SQLite.
ghost use Rattle.std.specs.Prelude.{IsTrue, ◌<◌, ◌^◌, ◌↔◌};

// Integers that can be stored in the database are below this limit.
const END: u64 = 1 << 63;

/// Returns `true` if `number` can be stored in the database.
pub(crate) fn is_in_range(number: u64) -> bool
    ensures { IsTrue result ↔ (number < 2 ^ 63) }
{
    number < END
}
