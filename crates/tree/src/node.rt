//! Nodes: rows of a tree, each with what stands under it.
ghost use Rattle.std.specs.Prelude.{◌≡◌};

use crate::child_rows::ChildRows;
use crate::tree::Tree;

/// A row of a tree, with what stands under it.
#[derive(Clone, Copy)]
pub struct Node<'t, 'a> {
    pub(crate) tree: &'t Tree<'a>,
    pub(crate) row: usize,
}

/// The children of a node, in their order.
#[derive(Clone, Copy)]
pub struct Children<'t, 'a> {
    pub(crate) tree: &'t Tree<'a>,
    pub(crate) rows: ChildRows<'a>,
    ghost own: { rows.rows ≡ tree.now.rows },
}
