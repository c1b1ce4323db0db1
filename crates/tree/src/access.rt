//! What a tree is asked: its rows, their children and siblings, their texts.
ghost use Rattle.std.specs.Prelude.{◌≡◌, length};
ghost use Rattle.kinds.specs.Number.{number};
ghost use Rattle.tree.specs.Enclosure.{ChildrenAreEnclosedDirectly, ChildrenCarryTheirRows, ChildrenStandInOrder};
ghost use Rattle.tree.specs.Forest.{Under, children, row_at, siblings, since};
ghost use Rattle.tree.specs.Subject.{tree_module, tree_rows, tree_text};
ghost use Rattle.tree.specs.Texts.{text_at};

use crate::row::Row;
use crate::tree::Tree;
use kinds::kind::Kind;

impl<'a> Tree<'a> {
    /// The module that the tree belongs to.
    pub fn module(&self) -> u32
        ensures { result ≡ tree_module self.now }
    {
        self.module
    }

    /// How many rows there are.
    pub fn count(&self) -> usize
        ensures { result ≡ length (tree_rows self.now) }
    {
        self.rows.rows.count()
    }

    /// Row j; a row of zeros past the rows.
    // No `Option`: callers are promised an answer for every number, here and in `kind` and `text`.
    pub fn row(&self, j: usize) -> Row
        ensures { result ≡ row_at (tree_rows self.now) j }
    {
        self.rows.rows.row(j)
    }

    /// The kind of row j; `Kind::Other` past the rows.
    // No `Option`: the kind of the row of zeros, which callers are promised past the rows.
    #[tactic(auto, using(crate::proofs::KnownKinds::decoded, crate::proofs::KnownKinds::known))]
    pub fn kind(&self, j: usize) -> Kind
        ensures { number result ≡ (row_at (tree_rows self.now) j).kind }
    {
        self.row(j).kind().unwrap_or(Kind::Other)
    }

    /// The first child of row j.
    pub fn first_child(&self, j: usize) -> Option<usize>
        ensures is { children (tree_rows self.now) j ≡ since (tree_rows self.now) j result }
        ensures under { Under (tree_rows self.now) j result }
        ensures direct { ChildrenAreEnclosedDirectly }
        ensures ordered { ChildrenStandInOrder }
        ensures carried { ChildrenCarryTheirRows }
    {
        self.rows.first_child(j)
    }

    /// The first row under row j after row c and what row c encloses: the next sibling, where row c is a child of row
    /// j. None where row c does not stand under row j.
    pub fn next_sibling(&self, c: usize, j: usize) -> Option<usize>
        ensures is { siblings (tree_rows self.now) c j ≡ since (tree_rows self.now) j result }
        ensures under { Under (tree_rows self.now) j result }
        ensures later { Under (tree_rows self.now) c result }
    {
        self.rows.next_sibling(c, j)
    }

    /// The text section, which outlives the borrow of the tree.
    pub fn text_section(&self) -> &'a [u8]
        ensures { result.now ≡ tree_text self.now }
    {
        self.text
    }

    /// The text of row j, which outlives the borrow of the tree; empty where the row has none.
    pub fn text(&self, j: usize) -> &'a [u8]
        ensures { result.now ≡ text_at (tree_text self.now) (row_at (tree_rows self.now) j) }
    {
        self.row(j).text_in(self.text)
    }
}
