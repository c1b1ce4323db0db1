//! The depth of rows: at most 256 rows enclose a row.
ghost use Rattle.std.specs.Prelude.{◌≡◌, length, nat_lt};
ghost use Rattle.tree.specs.Block.{rows_of};
ghost use Rattle.tree.specs.Depth.{deep, Shallow};
ghost use Rattle.tree.specs.First.{First};
ghost use Rattle.tree.specs.Forest.{children};

use crate::nested::NestedRows;

/// The most rows that may enclose a row.
const DEEPEST: u32 = 256;

/// Whether so many enclosing rows are too many.
fn is_too_deep(depth: u32) -> bool
    ensures { result ≡ nat_lt 256 depth }
{
    depth > DEEPEST
}

impl NestedRows<'_> {
    /// The first row under row j that more than 256 rows enclose, where `depth` rows enclose the children of row j.
    /// It calls itself once a level, and no further than the deepest level.
    fn first_deep_under(&self, j: usize, depth: u32) -> Option<usize>
        ensures { result ≡ deep depth (children (rows_of self.now.rows) j) }
    {
        // With `find_map` the closure and this function are a cycle of two measures, longer than this loop's invariant.
        for c in self.children(j) {
            if is_too_deep(depth) {
                return Some(c);
            }
            if let Some(k) = self.first_deep_under(c, depth + 1) {
                return Some(k);
            }
        }
        None
    }

    /// The first row that more than 256 rows enclose.
    #[tactic(auto, using(crate::proofs::Deepest::too_deep))]
    pub(crate) fn first_deep(&self) -> Option<usize>
        ensures { First (Shallow (rows_of self.now.rows)) (length (rows_of self.now.rows)) result }
    {
        self.first_deep_under(0, 1)
    }
}
