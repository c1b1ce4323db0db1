//! The program that a tree holds, and the script test.
ghost use Rattle.std.specs.Prelude.{◌≡◌, ◌==◌, false, true, Some};
ghost use Rattle.findings.specs.Script.{FirstTellingChildDecides, first_shows, is_script};
ghost use Rattle.findings.specs.Script.{kind_word, program_kind, shown};
ghost use Rattle.kinds.specs.Number.{number};
ghost use Rattle.tree.specs.Forest.{children, row_at};
ghost use Rattle.tree.specs.Subject.{tree_rows};

use kinds::kind::Kind;
use std::fmt;
use tree::{Node, Tree};

/// What a program is.
#[derive(Clone, Copy, PartialEq, Eq, Debug)]
pub enum ProgramKind {
    Module,
    Script,
}

/// A module. Only `ProgramRef::new` makes one, of a tree whose root is unmarked.
#[derive(Clone, Copy)]
pub struct Module<'a> {
    tree: &'a Tree<'a>,
    pub ghost unmarked: { ((row_at (tree_rows tree.now) 0).mark == 1) ≡ false },
}

/// A script. Only `ProgramRef::new` makes one, of a tree whose root is marked.
#[derive(Clone, Copy)]
pub struct Script<'a> {
    tree: &'a Tree<'a>,
    pub ghost marked: { ((row_at (tree_rows tree.now) 0).mark == 1) ≡ true },
}

/// A borrowed program, the subject of the analyses.
#[derive(Clone, Copy)]
pub enum ProgramRef<'a> {
    Module(Module<'a>),
    Script(Script<'a>),
}

/// The word for what a program is.
impl fmt::Display for ProgramKind {
    ghost output = { λ x. Some (kind_word x) };

    fn fmt<W: fmt::Write>(&self, f: &mut fmt::Formatter<W>) -> fmt::Result {
        f.write_str(match self {
            ProgramKind::Module => "module",
            ProgramKind::Script => "script",
        })
    }
}

/// Whether a child of a kind shows a script, where it tells.
fn shows(kind: Kind) -> Option<bool>
    ensures { result ≡ shown (number kind) }
{
    match kind {
        Kind::Import
        | Kind::ExportAll
        | Kind::ExportDecl
        | Kind::ExportNamed
        | Kind::ExportDefault => Some(false),
        Kind::TsImportEquals | Kind::TsExportAssignment => Some(true),
        _ => None,
    }
}

impl<'a> Module<'a> {
    /// Whether the first child that tells shows a script.
    fn children_show_script(&self) -> bool
        ensures { result ≡ first_shows (children (tree_rows self.now.tree.now) 0) }
    {
        self.tree
            .node(0)
            .children()
            .find_map(|child| shows(child.kind()))
            .unwrap_or(false)
    }
}

impl<'a> ProgramRef<'a> {
    ghost use Rattle.findings.specs.Program.{program_case, program_tree};

    /// The program of a tree: a script where the tree's root is marked.
    pub fn new(tree: &'a Tree<'a>) -> Self
        ensures tree { program_tree result ≡ tree.now }
        ensures kind { program_case result ≡ program_kind (tree_rows tree.now) }
    {
        if tree.node(0).is_marked() {
            ProgramRef::Script(Script { tree })
        } else {
            ProgramRef::Module(Module { tree })
        }
    }

    /// The tree that holds it.
    pub fn tree(&self) -> &'a Tree<'a>
        ensures { result.now ≡ program_tree self.now }
    {
        match self {
            ProgramRef::Module(module) => module.tree,
            ProgramRef::Script(script) => script.tree,
        }
    }

    /// The node at which the program stands.
    pub fn root(&self) -> Node<'a, 'a>
        ensures tree { result.tree.now ≡ program_tree self.now }
        ensures row { result.row ≡ 0 }
    {
        self.tree().node(0)
    }

    /// Whether it is a module or a script.
    pub fn kind(&self) -> ProgramKind
        ensures { result ≡ program_kind (tree_rows (program_tree self.now)) }
    {
        match self {
            ProgramRef::Module(_) => ProgramKind::Module,
            ProgramRef::Script(_) => ProgramKind::Script,
        }
    }

    /// Whether the program is treated as a script: a module is where its first child that tells shows a script.
    #[tactic(auto, using(crate::proofs::Telling::first_telling_child_decides))]
    pub fn compute_is_script(&self) -> bool
        ensures is { result ≡ is_script (tree_rows (program_tree self.now)) }
        ensures first { FirstTellingChildDecides }
    {
        match self {
            ProgramRef::Module(module) => module.children_show_script(),
            ProgramRef::Script(_) => true,
        }
    }
}
