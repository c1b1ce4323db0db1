//! Rows whose ends are lawful.
ghost use Rattle.tree.specs.Block.{rows_of};
ghost use Rattle.tree.specs.Forest.{Nested};

use crate::row::Rows;

/// The rows of a block, each of which ends above its own number and at most where every enclosing row does.
#[derive(Clone, Copy)]
pub(crate) struct NestedRows<'a> {
    pub(crate) rows: Rows<'a>,
    ghost nested: { Nested (rows_of rows) },
}
