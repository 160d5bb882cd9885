//! Finds the rows with a number among sorted rows.
ghost use Rattle.std.specs.Prelude.{◌≡◌, ◌==◌, ℕ, filter};
ghost use Rattle.std.specs.List.Sorted.{IsNonDecreasingBy};

use table_rows::{StoredGrouping, StoredRecord, StoredSession, StoredWord};

/// A row with a number by which rows are sorted and found.
pub trait Ranged {
    ghost number: { Self → ℕ };

    /// Returns the number.
    fn number(&self) -> u64
        ensures { result ≡ number self.now };
}

/// A record is found by the id of its batch.
impl Ranged for StoredRecord {
    ghost number = { λ stored. stored.batch };

    fn number(&self) -> u64 {
        self.batch
    }
}

/// A grouping is found by the id of its batch.
impl Ranged for StoredGrouping {
    ghost number = { λ grouping. grouping.batch };

    fn number(&self) -> u64 {
        self.batch
    }
}

/// A session is found by the id of its batch.
impl Ranged for StoredSession {
    ghost number = { λ session. session.batch };

    fn number(&self) -> u64 {
        self.batch
    }
}

/// A status word is found by the id of its session.
impl Ranged for StoredWord {
    ghost number = { λ word. word.session };

    fn number(&self) -> u64 {
        self.session
    }
}

/// Returns the rows with the number `number`, in their order.
pub fn range_of<T: Ranged>(rows: &[T], number: u64) -> &[T]
    requires { IsNonDecreasingBy T.number rows.now }
    ensures { result.now ≡ filter (λ row. T.number row == number) rows.now }
{
    let first = rows.partition_point(|row| row.number() < number);
    let rest = &rows[first..];
    let count = rest.partition_point(|row| row.number() <= number);
    &rest[..count]
}
