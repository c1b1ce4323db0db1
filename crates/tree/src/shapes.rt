//! The shapes of rows: kinds, marks and children as the table of kinds has them.
ghost use Rattle.std.specs.Prelude.{◌≡◌, ◌+◌, ◌==◌, cond, length};
ghost use Rattle.kinds.specs.Number.{number};
ghost use Rattle.kinds.specs.Shape.{first_child, last_child, later_child};
ghost use Rattle.tree.specs.Block.{rows_of};
ghost use Rattle.tree.specs.First.{First};
ghost use Rattle.tree.specs.Forest.{children, row_at};
ghost use Rattle.tree.specs.Shaped.{LawfulShape, children_fit, group_for, is_shaped, kinds_of, may_have};
ghost use Rattle.tree.specs.Shaped.{root_is_program};

use crate::nested::NestedRows;
use kinds::kind::Kind;
use kinds::shape::Group;

/// Whether a place is the last of so many.
fn is_last(place: usize, count: usize) -> bool
    ensures { result ≡ (place + 1 == count) }
{
    count.checked_sub(1) == Some(place)
}

/// The group of the child at a place of so many: a last one has that of last children, where the kind has one.
fn group_at(kind: Kind, mark: u32, place: usize, count: usize) -> Group
    ensures { result ≡ group_for (last_child (number kind)) (cond (place == 0) (first_child (number kind) mark) (later_child (number kind) mark)) (place + 1 == count) }
{
    let group = if place == 0 {
        kind.first_child_group(mark)
    } else {
        kind.later_child_group(mark)
    };
    if is_last(place, count) {
        kind.last_child_group().unwrap_or(group)
    } else {
        group
    }
}

/// Whether a kind may have so many children.
fn may_have(kind: Kind, count: usize) -> bool
    ensures { result ≡ may_have (number kind) count }
{
    kind.fewest_children() <= count && kind.most_children().is_none_or(|most| count <= most)
}

/// Whether row 0 is a Program, or another row is none.
fn root_is_program(j: usize, kind: Kind) -> bool
    ensures { result ≡ root_is_program j (number kind) }
{
    (j == 0) == (kind == Kind::Program)
}

impl NestedRows<'_> {
    /// Whether the children of row j fit it.
    fn children_fit(&self, j: usize, kind: Kind) -> bool
        requires { number kind ≡ (row_at (rows_of self.now.rows) j).kind }
        ensures { result ≡ children_fit (row_at (rows_of self.now.rows) j) (kinds_of (children (rows_of self.now.rows) j)) }
    {
        let mark = self.rows.row(j).mark;
        let count = self.children(j).count();
        may_have(kind, count)
            && self.children(j).enumerate().all(|(place, c)| {
                let group = group_at(kind, mark, place, count);
                group.has(self.rows.row(c).kind)
            })
    }

    /// Whether row j fits the table of kinds.
    fn is_shaped(&self, j: usize) -> bool
        ensures { result ≡ is_shaped (rows_of self.now.rows) j }
    {
        let row = self.rows.row(j);
        let Ok(kind) = row.kind() else {
            return false;
        };
        root_is_program(j, kind) && row.mark <= kind.highest_mark() && self.children_fit(j, kind)
    }

    /// The first row that does not fit the table of kinds.
    pub(crate) fn first_unshaped(&self) -> Option<usize>
        ensures { First (LawfulShape (rows_of self.now.rows)) (length (rows_of self.now.rows)) result }
    {
        (0..self.rows.count()).find(|j| !self.is_shaped(*j))
    }
}
