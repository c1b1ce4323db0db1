//! Places of a text as rows: by the loose reading of their texts.
ghost use Rattle.table.specs.Kinds.{places};
ghost use Rattle.table.specs.Totals.{numbers_total};

use crate::row::Row;
use std::cmp::Ordering;
use text::{Place, compare_loose};

/// Rows whose key is the loose reading of their text.
impl Row for Place {
    ghost kind = { places };

    ghost total = { numbers_total };

    fn none() -> Self {
        Self::default()
    }

    fn is_none(&self) -> bool {
        *self == Self::default()
    }

    fn compare(&self, text: &[u8], other: &Self, from: &[u8]) -> Ordering {
        compare_loose(self.part(text), other.part(from))
    }
}
