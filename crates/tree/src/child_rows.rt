//! The children of a row, by their numbers.
ghost use Rattle.std.specs.Prelude.{◌≡◌, ℕ, ◌<◌, length, Some};
ghost use Rattle.tree.specs.Block.{rows_of};

use crate::nested::NestedRows;

/// The numbers of a row's children, in their order.
#[derive(Clone, Copy)]
pub(crate) struct ChildRows<'a> {
    pub(crate) rows: NestedRows<'a>,
    pub(crate) parent: usize,
    pub(crate) next: Option<usize>,
    ghost under: { (row : ℕ) → next ≡ Some row → (parent < row) × (row < length (rows_of rows.rows)) },
}
