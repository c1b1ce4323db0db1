//! The walk over a tree, and the analysis.
ghost use Rattle.std.specs.Prelude.{◌≡◌};
ghost use Rattle.cjs_law.specs.Laws.{ActsDecideTheLists};
ghost use Rattle.cjs_law.specs.Rows.{WalkedRowsDecideTheActs};
ghost use Rattle.cjs_law.specs.Walk.{WalkReachesWhatIsNotSkipped};
ghost use Rattle.cjs_parse.specs.Outcome.{cjs_outcome};
ghost use Rattle.cjs_parse.specs.State.{Ends, Sound, state};
ghost use Rattle.cjs_rules.specs.Rules.{RequiredArgumentIsTheOnlyOneOrBeforeExports};
ghost use Rattle.findings.specs.Program.{program_tree};
ghost use Rattle.findings.specs.Tables.{Analysed, nothing, room_of};
ghost use Rattle.tree.specs.Subject.{tree_module, tree_rows, tree_text};

use crate::visited::Visited;
use crate::walk::{Walk, take_result};
use findings::parsed_source::ProgramRef;
use findings::{FindingsFault, FindingsTables};
use tree::Tree;

/// Walks over the nodes and enters what they ask for in empty tables. It is refused at the row at which a table has no
/// free row.
// `Sound` is asked: a method of `Walk`, whose invariant it is, would ask in its place that its text is the tree's.
fn walk(tables: &mut FindingsTables, tree: &Tree) -> Result<(), FindingsFault>
    requires sound { Sound (tree_text tree.now) tables.old }
    requires empty { state tables.old ≡ nothing }
    ensures { Ends (tree_module tree.now) (tree_text tree.now) (tree_rows tree.now) tables.old result tables.new }
{
    let module = tree.module();
    let text = tree.text_section();
    let mut walk = Walk { tables, text };
    let visited = Visited { tree, next: 0 };
    for node in visited {
        let row = node.row();
        // The refusal as in the other analysis: a shared function would be longer.
        walk.visit(node)
            .map_err(|_| FindingsFault::Full { module, row })?;
    }
    Ok(())
}

/// Finds the CommonJS exports and re-exports of a program: one walk over its rows, and what it leaves in the tables.
/// Where something new is found and its table has no row left, the program is refused at the row where the walk acted,
/// and every row of the tables is zero.
#[tactic(auto, using(crate::proofs::Laws::walk_laws))]
pub fn analyze_cjs(program: ProgramRef, tables: &mut FindingsTables) -> Result<(), FindingsFault>
    ensures analysed { Analysed (tree_module (program_tree program.entry)) tables.old (cjs_outcome (room_of tables.old) (tree_text (program_tree program.entry)) (tree_rows (program_tree program.entry))) result tables.new }
    ensures walk { WalkReachesWhatIsNotSkipped }
    ensures acts { WalkedRowsDecideTheActs }
    ensures lists { ActsDecideTheLists }
    ensures argument { RequiredArgumentIsTheOnlyOneOrBeforeExports }
{
    let tree = program.tree();
    tables.clear();
    let walked = walk(tables, tree);
    // No `inspect_err`: it leaves open what its closure leaves in the tables where nothing is refused. The arm that
    // clears them stands in `exports` too, and is shorter than a shared function.
    match walked {
        Ok(()) => take_result(tables, tree.text_section()),
        Err(_) => tables.clear(),
    }
    walked
}
