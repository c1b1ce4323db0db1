//! Children and siblings, by the ends of rows.
ghost use Rattle.std.specs.Prelude.{◌≡◌};
ghost use Rattle.std.specs.Iterator.{at_most};
ghost use Rattle.tree.specs.Block.{rows_of};
ghost use Rattle.tree.specs.ChildRows.{GivesRow, rest, still};
ghost use Rattle.tree.specs.Forest.{Under, children, siblings, since};

use crate::child_rows::ChildRows;
use crate::nested::NestedRows;

impl<'a> NestedRows<'a> {
    /// The first row that row j encloses.
    pub(crate) fn first_child(&self, j: usize) -> Option<usize>
        ensures is { children (rows_of self.now.rows) j ≡ since (rows_of self.now.rows) j result }
        ensures under { Under (rows_of self.now.rows) j result }
    {
        let end = self.rows.end(j);
        j.checked_add(1).filter(|child| *child < end)
    }

    /// The sibling after row c among the children of row j.
    #[tactic(auto, using(crate::proofs::Grown::siblings_some, crate::proofs::Grown::siblings_none))]
    pub(crate) fn next_sibling(&self, c: usize, j: usize) -> Option<usize>
        ensures is { siblings (rows_of self.now.rows) c j ≡ since (rows_of self.now.rows) j result }
        ensures under { Under (rows_of self.now.rows) j result }
        ensures later { Under (rows_of self.now.rows) c result }
    {
        let next = self.rows.end(c);
        (j < c && c < next && next < self.rows.end(j)).then_some(next)
    }

    /// The numbers of the children of row j.
    pub(crate) fn children(&self, j: usize) -> ChildRows<'a>
        ensures rest { rest result ≡ children (rows_of self.now.rows) j }
        ensures rows { result.rows ≡ self.now }
        ensures parent { result.parent ≡ j }
    {
        ChildRows {
            rows: *self,
            parent: j,
            next: self.first_child(j),
        }
    }
}

/// The number of the next child.
impl Iterator for ChildRows<'_> {
    type Item = usize;

    ghost next_gives = { GivesRow };

    ghost remaining = { λ it. at_most (still it) };

    fn next(&mut self) -> Option<usize> {
        let row = self.next?;
        self.next = self.rows.next_sibling(row, self.parent);
        Some(row)
    }
}
