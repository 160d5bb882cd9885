//! Compares values part by part.
ghost use Rattle.std.specs.Prelude.{◌≡◌, ◌↔◌, IsTrue};

use sqlite_items::Items;
use sqlite_value::keys::Order;
use sqlite_value::value::Bytes;

/// A type whose values can be compared.
pub(crate) trait Same {
    ghost use Rattle.std.specs.Prelude.{◌≡◌, ◌↔◌, IsTrue};

    /// Returns `true` if `self` and `other` are equal.
    fn same(&self, other: &Self) -> bool
        ensures { IsTrue result ↔ (self.now ≡ other.now) };
}

fn same_all<T: Same>(a: &[T], b: &[T]) -> bool
    ensures { IsTrue result ↔ (a.now ≡ b.now) }
{
    let mut first = a;
    let mut second = b;
    while let [x, more @ ..] = first {
        let [y, others @ ..] = second else {
            return false;
        };
        if !x.same(y) {
            return false;
        }
        first = more;
        second = others;
    }
    second.is_empty()
}

impl<T: Same> Same for Items<T> {
    fn same(&self, other: &Items<T>) -> bool {
        same_all(self.as_slice(), other.as_slice())
    }
}

impl Same for usize {
    fn same(&self, other: &usize) -> bool {
        *self == *other
    }
}

impl Same for Bytes {
    fn same(&self, other: &Bytes) -> bool {
        self.as_slice() == other.as_slice()
    }
}

impl<T: Same> Same for Option<T> {
    fn same(&self, other: &Option<T>) -> bool {
        match (self, other) {
            (Some(a), Some(b)) => a.same(b),
            (None, None) => true,
            _ => false,
        }
    }
}

impl Same for Order {
    fn same(&self, other: &Order) -> bool {
        self.digits == other.digits
    }
}
