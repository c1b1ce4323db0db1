//! The nodes that the walk comes to.
ghost use Rattle.std.specs.Prelude.{◌≡◌, ◌-◌, ◌<◌, length};
ghost use Rattle.std.specs.Iterator.{at_most};
ghost use Rattle.cjs_law.specs.Walk.{skips};
ghost use Rattle.cjs_parse.specs.State.{after};
ghost use Rattle.cjs_parse.specs.Visited.{Gives};
ghost use Rattle.tree.specs.Children.{row_of};
ghost use Rattle.tree.specs.Subject.{tree_rows};

use kinds::kind::Kind;
use tree::{Node, Tree};

/// The nodes of a tree from row `next` on, but for those under an assignment by an operator other than `=`.
#[derive(Clone, Copy)]
pub(crate) struct Visited<'a> {
    pub(crate) tree: &'a Tree<'a>,
    pub(crate) next: usize,
}

/// Whether a node is an assignment by an operator other than `=`, under which nothing is walked.
fn is_skipped(node: Node) -> bool
    ensures { result ≡ skips (row_of node.entry) }
{
    node.is(Kind::Assign) && node.is_marked()
}

/// The row that the walk comes to after a node.
#[tactic(auto, using(tree::proofs::Split::few_rows))]
fn next_row(node: Node) -> usize
    requires { node.row < length (tree_rows node.tree.now) }
    ensures { result ≡ after (tree_rows node.entry.tree.now) node.entry.row }
{
    if is_skipped(node) {
        node.end()
    } else {
        node.row() + 1
    }
}

/// The next node that the walk comes to, or none past the rows.
impl<'a> Iterator for Visited<'a> {
    type Item = Node<'a, 'a>;

    ghost next_gives = { Gives };

    ghost remaining = { λ it. at_most (length (tree_rows it.tree.now) - it.next) };

    fn next(&mut self) -> Option<Node<'a, 'a>> {
        let row = self.next;
        if row >= self.tree.count() {
            return None;
        }
        let node = self.tree.node(row);
        self.next = next_row(node);
        Some(node)
    }
}
