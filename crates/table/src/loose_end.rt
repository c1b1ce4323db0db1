//! Loose ends as rows: by module, then by place.
ghost use Rattle.table.specs.Kinds.{loose_ends};
ghost use Rattle.table.specs.Totals.{numbers_total};

use crate::row::Row;
use std::cmp::Ordering;

/// A re-export of a module, by the place of its text, that leads to no module.
// The place is written out: as a `Place`, it would need an order by its numbers, which could be taken for the order
// of places as rows, by their texts.
#[derive(Clone, Copy, PartialEq, Eq, PartialOrd, Ord, Debug, Default)]
pub struct LooseEnd {
    pub module: u32,
    pub offset: u32,
    pub length: u32,
}

/// Rows whose key is their three numbers, in their order; no text is read.
impl Row for LooseEnd {
    ghost kind = { loose_ends };

    ghost total = { numbers_total };

    fn none() -> Self {
        Self::default()
    }

    fn is_none(&self) -> bool {
        *self == Self::default()
    }

    fn compare(&self, _text: &[u8], other: &Self, _from: &[u8]) -> Ordering {
        self.cmp(other)
    }
}
