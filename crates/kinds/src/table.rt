//! The table of kinds: which text, marks and children each kind of row has, as docs/TREE.md has it.
ghost use Rattle.std.specs.Prelude.{◌≡◌};
ghost use Rattle.kinds.specs.Number.{number};
ghost use Rattle.kinds.specs.Shape.{fewest, first_child, highest_mark, last_child, later_child, most, text_of};
ghost use Rattle.kinds.specs.Table.{ColumnsAreTheTable};

use crate::kind::Kind;
use crate::shape::Encoding::{Utf8, Wtf8};
use crate::shape::Group::{
    Any, Block, Declaration, Declarator, Function, Ident, Key, MemberProperty, Name, NotBlock,
    NotModuleItem, PatternProperty, Property, Specifier, SpecifierOrStr, Str,
};
use crate::shape::{Encoding, Group};

/// A line of the table.
#[derive(Clone, Copy)]
struct Line {
    text: Option<Encoding>,
    highest_mark: u32,
    fewest: usize,
    most: Option<usize>,
    first: Group,
    later: Group,
    last: Option<Group>,
}

/// A line, by its columns from left to right. A macro, since a constant's value may hold no call.
macro_rules! line {
    ($text:expr, $mark:expr, $fewest:expr, $most:expr, $first:expr, $later:expr, $last:expr) => {
        Line {
            text: $text,
            highest_mark: $mark,
            fewest: $fewest,
            most: $most,
            first: $first,
            later: $later,
            last: $last,
        }
    };
}

/// A line for each kind, in the order of their numbers: its text, its highest mark, the fewest and the most children,
/// and the groups of the first child, of the later ones and of the last.
static TABLE: [Line; 50] = [
    line!(None, 0, 0, None, Any, Any, None), // 0 Other
    line!(None, 1, 0, None, Any, Any, None), // 1 Program
    line!(Some(Utf8), 0, 0, Some(0), Any, Any, None), // 2 Ident
    line!(Some(Wtf8), 0, 0, Some(0), Any, Any, None), // 3 Str
    line!(None, 1, 0, Some(0), Any, Any, None), // 4 Num
    line!(None, 0, 0, Some(0), Any, Any, None), // 5 OtherLit
    line!(None, 0, 1, None, Any, Any, None), // 6 Call
    line!(None, 0, 1, Some(1), Any, Any, None), // 7 Spread
    line!(None, 0, 2, Some(2), Any, MemberProperty, None), // 8 Member
    line!(Some(Utf8), 0, 0, Some(0), Any, Any, None), // 9 PrivateName
    line!(None, 0, 1, Some(1), Any, Any, None), // 10 Computed
    line!(None, 0, 1, Some(1), Any, Any, None), // 11 Paren
    line!(None, 0, 1, None, Any, Any, None), // 12 Seq
    line!(None, 1, 2, Some(2), Any, Any, None), // 13 Assign
    line!(None, 0, 0, None, Property, Property, None), // 14 Object
    line!(None, 0, 2, Some(2), Key, Any, None), // 15 KeyValue
    line!(Some(Utf8), 0, 0, Some(0), Any, Any, None), // 16 Shorthand
    line!(None, 0, 1, Some(2), Key, Block, None), // 17 Getter
    line!(None, 0, 1, None, Key, Any, None), // 18 Setter
    line!(None, 0, 2, Some(2), Key, Function, None), // 19 Method
    line!(None, 0, 0, None, NotBlock, NotBlock, Some(Any)), // 20 Function
    line!(None, 0, 1, Some(2), Ident, Any, Some(Function)), // 21 FnExpr
    line!(None, 0, 1, None, Any, Any, None), // 22 Arrow
    line!(None, 0, 0, None, Any, Any, None), // 23 Block
    line!(None, 0, 0, Some(1), Any, Any, None), // 24 Return
    line!(None, 0, 0, None, Declarator, Declarator, None), // 25 VarDecl
    line!(None, 0, 0, None, Declarator, Declarator, None), // 26 UsingDecl
    line!(None, 0, 1, Some(2), Any, Any, None), // 27 Declarator
    line!(None, 0, 0, None, Any, Any, None), // 28 ArrayPat
    line!(None, 0, 0, None, PatternProperty, PatternProperty, None), // 29 ObjectPat
    line!(None, 0, 2, Some(2), Key, Any, None), // 30 KeyValuePat
    line!(None, 0, 1, Some(2), Ident, Any, None), // 31 AssignPatProp
    line!(None, 0, 1, Some(1), Any, Any, None), // 32 RestPat
    line!(None, 0, 2, Some(2), Any, Any, None), // 33 AssignPat
    line!(None, 0, 0, None, Any, Any, None), // 34 Import
    line!(None, 0, 1, Some(1), Str, Any, None), // 35 ExportAll
    line!(None, 0, 1, Some(1), Declaration, Any, None), // 36 ExportDecl
    line!(None, 0, 0, None, Specifier, Specifier, Some(SpecifierOrStr)), // 37 ExportNamed
    line!(None, 0, 1, Some(1), Name, Any, None), // 38 NamespaceSpec
    line!(None, 0, 1, Some(1), Ident, Any, None), // 39 DefaultSpec
    line!(None, 0, 1, Some(2), Name, Name, None), // 40 NamedSpec
    line!(None, 0, 1, Some(1), Any, Any, None), // 41 ExportDefault
    line!(None, 0, 0, None, Any, Any, None), // 42 TsImportEquals
    line!(None, 0, 0, None, Any, Any, None), // 43 TsExportAssignment
    line!(None, 0, 0, None, Any, Any, None), // 44 TsNamespaceExport
    line!(None, 0, 1, None, Ident, Any, None), // 45 ClassDecl
    line!(None, 0, 1, None, Ident, Any, None), // 46 FnDecl
    line!(None, 0, 1, None, Ident, Any, None), // 47 TsEnum
    line!(None, 0, 1, None, Name, Any, None), // 48 TsModule
    line!(None, 0, 0, None, Any, Any, None), // 49 TypeDecl
];

/// The line of a script, a Program of mark 1.
static SCRIPT: Line = line!(None, 1, 0, None, NotModuleItem, NotModuleItem, None);

impl Kind {
    /// The encoding of the text that a kind of row has, or None where it has no text.
    pub fn text(self) -> Option<Encoding>
        ensures { result ≡ text_of (number self) }
    {
        TABLE[self as usize].text
    }

    /// The highest mark of a kind, a number of the block's format.
    #[tactic(auto, using(crate::proofs::Tried::columns_are_the_table))]
    pub fn highest_mark(self) -> u32
        ensures is { result ≡ highest_mark (number self) }
        ensures table { ColumnsAreTheTable }
    {
        TABLE[self as usize].highest_mark
    }

    /// The fewest children of a kind.
    pub fn fewest_children(self) -> usize
        ensures { result ≡ fewest (number self) }
    {
        TABLE[self as usize].fewest
    }

    /// The most children of a kind, or none where there is no limit.
    pub fn most_children(self) -> Option<usize>
        ensures { result ≡ most (number self) }
    {
        TABLE[self as usize].most
    }

    /// The line of a row. A script's is its own, since the mark tells its children.
    fn line(self, mark: u32) -> Line
        ensures first { result.first ≡ first_child (number self) mark }
        ensures later { result.later ≡ later_child (number self) mark }
    {
        if self == Kind::Program && mark == 1 {
            SCRIPT
        } else {
            TABLE[self as usize]
        }
    }

    /// The group of the first child.
    pub fn first_child_group(self, mark: u32) -> Group
        ensures { result ≡ first_child (number self) mark }
    {
        self.line(mark).first
    }

    /// The group of each child after the first.
    pub fn later_child_group(self, mark: u32) -> Group
        ensures { result ≡ later_child (number self) mark }
    {
        self.line(mark).later
    }

    /// The group of the last child, where it differs from that of its place.
    pub fn last_child_group(self) -> Option<Group>
        ensures { result ≡ last_child (number self) }
    {
        TABLE[self as usize].last
    }
}
