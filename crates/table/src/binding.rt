//! Bindings as rows: by the bytes of their names.
ghost use Rattle.table.specs.Kinds.{bindings};
ghost use Rattle.table.specs.Totals.{numbers_total};

use crate::row::Row;
use std::cmp::Ordering;
use text::Place;

/// A name, and the text that it is bound to.
#[derive(Clone, Copy, PartialEq, Eq, Debug, Default)]
pub struct Binding {
    pub name: Place,
    pub value: Place,
}

/// Rows whose key is the name's text, in the order of its bytes.
impl Row for Binding {
    ghost kind = { bindings };

    ghost total = { numbers_total };

    fn none() -> Self {
        Self::default()
    }

    fn is_none(&self) -> bool {
        *self == Self::default()
    }

    fn compare(&self, text: &[u8], other: &Self, from: &[u8]) -> Ordering {
        self.name.part(text).cmp(other.name.part(from))
    }
}
