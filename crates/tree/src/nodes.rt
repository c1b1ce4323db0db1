//! What a node is asked: its kind, its text, its children.
ghost use Rattle.std.specs.Prelude.{◌≡◌, ◌==◌, ◌<◌, not, length};
ghost use Rattle.std.specs.Iterator.{at_most};
ghost use Rattle.kinds.specs.Number.{number};
ghost use Rattle.tree.specs.Children.{Gives, GivesTwo, children_of, left, place_of, row_of, width};
ghost use Rattle.tree.specs.Enclosure.{ChildrenAreEnclosedDirectly, ChildrenCarryTheirRows, ChildrenStandInOrder};
ghost use Rattle.tree.specs.Subject.{tree_text};
ghost use Rattle.tree.specs.Texts.{text_at};

use crate::node::{Children, Node};
use crate::tree::Tree;
use kinds::kind::Kind;
use text::Place;

/// The next child.
impl<'t, 'a> Iterator for Children<'t, 'a> {
    type Item = Node<'t, 'a>;

    ghost next_gives = { Gives };

    ghost remaining = { λ it. at_most (width (left it)) };

    fn next(&mut self) -> Option<Node<'t, 'a>> {
        let row = self.rows.next()?;
        Some(self.tree.node(row))
    }
}

impl<'a> Tree<'a> {
    /// The node at row j; one of kind Other with nothing under it, past the rows.
    // No `Option`: callers are promised a node for every number, as `Tree::row` promises a row.
    pub fn node(&self, j: usize) -> Node<'_, 'a>
        ensures tree { result.tree.now ≡ self.now }
        ensures row { result.row ≡ j }
    {
        Node { tree: self, row: j }
    }
}

impl<'t, 'a> Node<'t, 'a> {
    /// The text section of the node's tree, which outlives the borrow of the tree.
    pub fn text_section(self) -> &'a [u8]
        ensures { result.now ≡ tree_text self.entry.tree.now }
    {
        self.tree.text_section()
    }

    /// The number of the node's row.
    pub fn row(self) -> usize
        ensures { result ≡ self.entry.row }
    {
        self.row
    }

    /// The number of the row at which the node ends: the first after what stands under it.
    pub fn end(self) -> usize
        ensures { result ≡ (row_of self.entry).end }
    {
        self.tree.row(self.row).end as usize
    }

    /// What the node is.
    pub fn kind(self) -> Kind
        ensures { number result ≡ (row_of self.entry).kind }
    {
        self.tree.kind(self.row)
    }

    /// Whether the node is of this kind.
    #[tactic(auto, using(crate::proofs::KnownKinds::same_kind))]
    pub fn is(self, kind: Kind) -> bool
        ensures { result ≡ ((row_of self.entry).kind == number kind) }
    {
        self.kind() == kind
    }

    /// Whether the node's mark is 1, and not 0.
    #[tactic(auto, using(crate::proofs::KnownKinds::unmarked, crate::proofs::KnownKinds::marked))]
    pub fn is_marked(self) -> bool
        ensures one { result ≡ ((row_of self.entry).mark == 1) }
        ensures zero { not result ≡ ((row_of self.entry).mark == 0) }
    {
        self.tree.row(self.row).mark == 1
    }

    /// The place of the node's text.
    pub fn place(self) -> Place
        ensures { result ≡ place_of (row_of self.entry) }
    {
        self.tree.row(self.row).place()
    }

    /// The text of the node, which outlives the borrow of the tree; empty where it has none.
    pub fn text(self) -> &'a [u8]
        ensures { result.now ≡ text_at (tree_text self.entry.tree.now) (row_of self.entry) }
    {
        self.tree.text(self.row)
    }

    /// The children of the node.
    pub fn children(self) -> Children<'t, 'a>
        ensures left { left result ≡ children_of self.entry }
        ensures tree { result.tree.now ≡ self.entry.tree.now }
        ensures parent { result.rows.parent ≡ self.entry.row }
        ensures direct { ChildrenAreEnclosedDirectly }
        ensures ordered { ChildrenStandInOrder }
        ensures carried { ChildrenCarryTheirRows }
    {
        Children {
            tree: self.tree,
            rows: self.tree.rows.children(self.row),
        }
    }

    /// The first two children of the node, or None where it has fewer.
    pub fn first_two(self) -> Option<(Node<'t, 'a>, Node<'t, 'a>)>
        ensures { GivesTwo self.entry result }
    {
        let mut children = self.children();
        let first = children.next()?;
        let second = children.next()?;
        Some((first, second))
    }
}
