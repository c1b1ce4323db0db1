//! A lawful tree in borrowed bytes.
ghost use Rattle.std.specs.Prelude.{ℕ, ◌<◌, length};
ghost use Rattle.tree.specs.Block.{rows_of};
ghost use Rattle.tree.specs.Depth.{Shallow};
ghost use Rattle.tree.specs.Forest.{row_at};
ghost use Rattle.tree.specs.Shaped.{LawfulShape};
ghost use Rattle.tree.specs.Texts.{LawfulText};

use crate::nested::NestedRows;

/// The rows and the text of a lawful block, and the module that it belongs to. Only a check makes one, so an unchecked
/// block cannot be analysed.
#[derive(Clone, Copy)]
pub struct Tree<'a> {
    pub(crate) module: u32,
    pub(crate) rows: NestedRows<'a>,
    pub(crate) text: &'a [u8],
    ghost rooted: { 0 < length (rows_of rows.rows) },
    ghost shallow: { (j : ℕ) → j < length (rows_of rows.rows) → Shallow (rows_of rows.rows) j },
    ghost shaped: { (j : ℕ) → j < length (rows_of rows.rows) → LawfulShape (rows_of rows.rows) j },
    ghost texts: { (j : ℕ) → j < length (rows_of rows.rows) → ∥ LawfulText text.now (row_at (rows_of rows.rows) j) ∥₁ },
}
