//! The check of a block, the script test and both analyses.
ghost use Rattle.std.specs.Prelude.{◌≡◌, ℕ, List};
ghost use Rattle.block_lines.specs.Analyses.{Analysis, AnalysisOf, TreeAnalysis};
ghost use Rattle.tree.specs.Subject.{TreeOf, tree_module};

use cjs_parse::analyze_cjs;
use exports::analyze_es_runtime_exports;
use findings::parsed_source::{ProgramKind, ProgramRef};
use findings::{FindingsFault, FindingsTables};
use tree::{Tree, TreeFault};

/// What is found in a lawful block: its text section, how many rows it has, what its program is, the script test, and
/// whether each analysis is refused. What the analyses find stands in their tables.
// No text beside a `Report`: callers read the fields by these names.
#[derive(Clone, Copy)]
pub struct Analyses<'a> {
    pub text: &'a [u8],
    pub rows: usize,
    pub kind: ProgramKind,
    pub is_script: bool,
    pub cjs: Result<(), FindingsFault>,
    pub es: Result<(), FindingsFault>,
}

/// Runs the script test and both analyses of a tree, each with tables of its own.
pub fn analyse_tree<'a>(
    tree: &Tree<'a>,
    cjs: &mut FindingsTables,
    es: &mut FindingsTables,
) -> Analyses<'a>
    ensures tree { TreeAnalysis tree.now cjs.old es.old result cjs.new es.new }
    ensures block { (block : List ℕ) → TreeOf block tree.now → Analysis (tree_module tree.now) block cjs.old es.old result cjs.new es.new }
{
    let program = ProgramRef::new(&*tree);
    Analyses {
        text: tree.text_section(),
        rows: tree.count(),
        kind: program.kind(),
        is_script: program.compute_is_script(),
        cjs: analyze_cjs(program, cjs),
        es: analyze_es_runtime_exports(program, es),
    }
}

/// Checks a block of a module, and runs the script test and both analyses, each with tables of its own.
// Module, block and both tables stay parameters, here and in `answer.rt`: a struct of them is no plainer, as each of
// the four functions uses the tables apart.
pub fn analyse<'a>(
    module: u32,
    block: &'a [u8],
    cjs: &mut FindingsTables,
    es: &mut FindingsTables,
) -> Result<Analyses<'a>, TreeFault>
    ensures { AnalysisOf «module» block.now cjs.old es.old result cjs.new es.new }
{
    let tree = Tree::check(module, block)?;
    Ok(analyse_tree(&tree, cjs, es))
}
