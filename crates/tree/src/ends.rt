//! Where rows end: each after itself, and no row later than one around it.
ghost use Rattle.std.specs.Prelude.{◌≡◌, ◌<◌, ◌≤◌, min, length, MatchOption, MatchResult, Some};
ghost use Rattle.tree.specs.Block.{rows_of};
ghost use Rattle.tree.specs.First.{First, Covered};
ghost use Rattle.tree.specs.Forest.{LawfulEnd, end_at};

use crate::nested::NestedRows;
use crate::row::Rows;

impl<'a> Rows<'a> {
    /// The first child of row j, below `limit`, whose end is unlawful.
    fn first_unlawful_child(self, j: usize, limit: usize) -> Option<usize>
        requires { (j < limit) × (limit ≤ length (rows_of self)) }
        ensures { MatchOption result (Covered (rows_of self.entry) j (min (end_at (rows_of self.entry) j) limit))
            (λ c. (j < c) × (c < limit) × (LawfulEnd (rows_of self.entry) c → ⊥) × Covered (rows_of self.entry) j (min (end_at (rows_of self.entry) j) c)) }
    {
        let end = self.end(j);
        let mut c = j + 1;
        // The rows are not known to be nested yet, so there is no iterator of the children.
        while c < end.min(limit) {
            let next = self.end(c);
            if next <= c || next > end {
                return Some(c);
            }
            c = next;
        }
        None
    }

    /// The rows with lawful ends, or the first row whose end is unlawful. Each row is looked at as the child of one row
    /// only, so this is linear.
    pub(crate) fn nested(self) -> Result<NestedRows<'a>, usize>
        ensures { MatchResult result (λ n. n.rows ≡ self.entry)
            (λ row. First (LawfulEnd (rows_of self.entry)) (length (rows_of self.entry)) (Some row)) }
    {
        let count = self.count();
        if self.end(0) != count {
            return Err(0);
        }
        // No row before this one is known to be unlawful. A `try_fold` would fold it to a number that nobody reads.
        let mut limit = count;
        for j in 0..count {
            let end = self.end(j);
            if j == limit || end <= j {
                return Err(j);
            }
            limit = self.first_unlawful_child(j, limit).unwrap_or(limit);
        }
        Ok(NestedRows { rows: self })
    }
}
