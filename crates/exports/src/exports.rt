//! The ES analysis: which names a module exports, and which modules it re-exports.
ghost use Rattle.exports.specs.Beyond.{ItemsOfTheStandardExportTheirExportedNames};
ghost use Rattle.exports.specs.Listing.{ListedWholeOrRefusedAtTheFirstChildWithoutRoom, es_outcome};
ghost use Rattle.findings.specs.Program.{program_tree};
ghost use Rattle.findings.specs.Tables.{Analysed, room_of};
ghost use Rattle.tree.specs.Subject.{tree_module, tree_rows};

use crate::items::list_items;
use findings::parsed_source::ProgramRef;
use findings::{FindingsFault, FindingsTables};

/// Lists the names that a module exports and the modules that it re-exports, in source order. A script lists nothing.
/// The tables may hold anything before. Where an item finds no room, they hold nothing after, and the item is named.
#[tactic(auto, using(crate::proofs::Standard::items_of_the_standard, crate::proofs::WithinRoom::whole_or_refused))]
pub fn analyze_es_runtime_exports(
    program: ProgramRef,
    tables: &mut FindingsTables,
) -> Result<(), FindingsFault>
    ensures analysed { Analysed (tree_module (program_tree program.entry)) tables.old (es_outcome (room_of tables.old) (tree_rows (program_tree program.entry))) result tables.new }
    ensures whole { ListedWholeOrRefusedAtTheFirstChildWithoutRoom }
    ensures standard { ItemsOfTheStandardExportTheirExportedNames }
{
    tables.clear();
    match program {
        ProgramRef::Module(_) => {
            let listed = list_items(program, &mut tables.exports, &mut tables.reexports);
            // No `inspect_err`: it leaves open what its closure leaves in the tables where nothing is refused. They are
            // cleared so in `cjs_parse` too, which is shorter than a shared function.
            if listed.is_err() {
                tables.clear();
            }
            listed
        }
        ProgramRef::Script(_) => Ok(()),
    }
}
