//! From a block to its line.
ghost use Rattle.std.specs.Prelude.{◌≡◌, ℕ, ◌<◌, List, length, Some};
ghost use Rattle.block_lines.specs.Lines.{AnswersLineOf, AnswersOf, FindingsLineOf, FindingsOf, NamesOf, PartOf, answers_text, findings_text};
ghost use Rattle.tree.specs.Verdict.{Verdict};

use crate::analyses::Analyses;
use crate::line::{AnswersLine, FindingsLine, Names, Part, Report};
use fault::Fault;
use findings::{FindingsFault, FindingsTables};
use lines::Lists;
use tree::{LONGEST_BLOCK, TreeFault};

/// The refusal of a block of more than `LONGEST_BLOCK` bytes, whatever they are.
pub fn refusal_of_too_long(module: u32) -> Fault
    ensures { (block : List ℕ) → LONGEST_BLOCK < length block → Verdict «module» block (Some result) }
{
    Fault::from(TreeFault::too_long(module))
}

/// What an analysis comes to, whose tables these are.
fn part_of<'a>(answer: Result<(), FindingsFault>, tables: &'a FindingsTables<'_>) -> Part<'a>
    ensures { PartOf answer tables.now result }
{
    answer?;
    Ok(Lists {
        bindings: tables.bindings.held(),
        exports: tables.exports.held(),
        reexports: tables.reexports.held(),
        unsafes: tables.unsafes.held(),
    })
}

/// The line of `findings` for a block, by what was found in it and the tables that the analyses filled.
#[tactic(auto, using(crate::proofs::Told::findings_told))]
pub fn findings_line<'a>(
    found: Result<Analyses<'_>, TreeFault>,
    cjs: &'a FindingsTables<'_>,
    es: &'a FindingsTables<'_>,
) -> FindingsLine<'a>
    ensures parts { FindingsOf found.entry cjs.now es.now result }
    ensures line { FindingsLineOf found.entry cjs.now es.now (findings_text result) }
{
    let found = found?;
    Ok(Report {
        is_script: found.is_script,
        cjs: part_of(found.cjs, cjs),
        es: part_of(found.es, es),
    })
}

/// The names that tables hold, as places of a text section.
fn names_of<'t, 'a>(text: &'t [u8], tables: &'a FindingsTables<'_>) -> Names<'t, 'a>
    ensures { NamesOf text.now tables.now result }
{
    Names {
        text,
        exports: tables.exports.held(),
        reexports: tables.reexports.held(),
    }
}

/// The line of `answers` for a block, by what was found in it and the tables that the analyses filled.
pub fn answers_line<'t, 'a>(
    found: Result<Analyses<'t>, TreeFault>,
    cjs: &'a FindingsTables<'_>,
    es: &'a FindingsTables<'_>,
) -> AnswersLine<'t, 'a>
    ensures names { AnswersOf found.entry cjs.now es.now result }
    ensures line { AnswersLineOf found.entry cjs.now es.now (answers_text result) }
{
    let found = found?;
    found.cjs.and(found.es)?;
    Ok(Report {
        is_script: found.is_script,
        cjs: names_of(found.text, cjs),
        es: names_of(found.text, es),
    })
}
