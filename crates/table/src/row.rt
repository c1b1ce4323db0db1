//! A kind of rows.
ghost use Rattle.std.specs.Prelude.{◌≡◌, Decides};
ghost use Rattle.table.specs.Kind.{Kind};
ghost use Rattle.table.specs.Order.{TotalOrder};

use std::cmp::Ordering;

/// A row that a table keeps by its key. The key lies in a text that is lent to each call.
// No `Default` and `Eq`: the `==` of a type may look at less than all of it.
pub trait Row: Copy {
    /// the key of a row in a text, the order of keys, and the row that stands where none is
    ghost kind: { Kind Self };

    /// The row that stands where none is.
    fn none() -> Self
        ensures { result ≡ kind.zero };

    /// Whether this is the row that stands where none is.
    fn is_none(&self) -> bool
        ensures { Decides result (self.now ≡ kind.zero) };

    /// The order of the keys of two rows, each in its own text.
    fn compare(&self, text: &[u8], other: &Self, from: &[u8]) -> Ordering
        ensures { result ≡ kind.order (kind.key text.now self.now) (kind.key from.now other.now) };

    /// the order of keys is total, and only equal keys tie
    ghost total: { TotalOrder kind.order };
}
