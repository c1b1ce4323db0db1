//! What a block is, and what the analyses list of it, in words for people.
ghost use Rattle.std.specs.Prelude.{◌≡◌, OnOk, Some};
ghost use Rattle.answers.specs.Answers.{WritesLine};
ghost use Rattle.answers.specs.Memory.{size_room};
ghost use Rattle.answers.specs.Report.{Described, ReportOf, held_text, report_text, whole_text, yes_or_no};

use crate::memory::{Sizes, TableMemory};
use block_lines::analyse_tree;
use fault::Fault;
use findings::parsed_source::{ProgramKind, ProgramRef};
use people::{ListedNames, Rules, listed};
use std::alloc::Global;
use std::io::Write;
use std::{fmt, io};
use tree::{Tree, TreeFault};

/// What is reported of a lawful block: how many rows it has, what its program is, and what the script test says.
#[derive(Clone, Copy, PartialEq, Eq, Debug)]
pub struct Report {
    pub rows: usize,
    pub kind: ProgramKind,
    pub is_script: bool,
}

/// The words for a block: its report, or that it is refused and why.
#[derive(Clone, Copy, PartialEq, Eq, Debug)]
pub struct ReportText(pub Result<Report, TreeFault>);

/// The report of a block of a module, or its refusal.
pub fn report_for(module: u32, block: &[u8]) -> Result<Report, TreeFault>
    ensures { ReportOf «module» block.now result }
{
    let tree = Tree::check(module, block)?;
    let program = ProgramRef::new(&tree);
    Ok(Report {
        rows: tree.count(),
        kind: program.kind(),
        is_script: program.compute_is_script(),
    })
}

/// The word for an answer to a question: a truth value prints as another word.
fn yes_or_no(answer: bool) -> &'static str
    ensures { result.now ≡ yes_or_no answer }
{
    if answer { "yes" } else { "no" }
}

/// What a lawful block holds, in lines.
impl fmt::Display for Report {
    ghost output = { λ x. Some (held_text x) };

    fn fmt<W: fmt::Write>(&self, f: &mut fmt::Formatter<W>) -> fmt::Result {
        write!(
            f,
            "a lawful tree block\nrows: {}\nprogram: {}\ntreated as a script: {}",
            self.rows,
            self.kind,
            yes_or_no(self.is_script)
        )
    }
}

/// The report, or that the block is refused, with the fault's line and its reason.
impl fmt::Display for ReportText {
    ghost output = { λ x. Some (report_text x.0) };

    fn fmt<W: fmt::Write>(&self, f: &mut fmt::Formatter<W>) -> fmt::Result {
        match self.0 {
            Ok(report) => write!(f, "{report}"),
            Err(refusal) => {
                let fault = Fault::from(refusal);
                write!(f, "not a lawful tree block\n{fault}: {refusal}")
            }
        }
    }
}

/// What a lawful block holds, and what each analysis lists of it.
#[derive(Clone, Copy)]
struct WholeReport<'t, 'c, 'e> {
    report: Report,
    cjs: ListedNames<'t, 'c>,
    es: ListedNames<'t, 'e>,
}

/// The report, and then the lists.
impl fmt::Display for WholeReport<'_, '_, '_> {
    ghost output = { λ x. Some (whole_text x) };

    fn fmt<W: fmt::Write>(&self, f: &mut fmt::Formatter<W>) -> fmt::Result {
        write!(f, "{}\n{}\n{}", self.report, self.cjs, self.es)
    }
}

/// Writes the report of a block, and what each analysis lists of it in tables of these sizes.
pub fn write_report<W: Write>(
    heap: Global,
    sizes: Sizes,
    block: &[u8],
    output: &mut W,
) -> io::Result<()>
    ensures { OnOk result (WritesLine (Described (size_room sizes) block.now) (W.contents output.old) (W.contents output.new)) }
{
    match Tree::check(0, block) {
        Ok(tree) => {
            // Not before the check: a refused block needs no tables.
            let mut cjs_memory = TableMemory::new(heap, sizes)?;
            let mut es_memory = TableMemory::new(heap, sizes)?;
            let mut cjs_tables = cjs_memory.tables();
            let mut es_tables = es_memory.tables();
            let found = analyse_tree(&tree, &mut cjs_tables, &mut es_tables);
            let report = Report {
                rows: found.rows,
                kind: found.kind,
                is_script: found.is_script,
            };
            let cjs = listed(Rules::CommonJs, found.text, found.cjs, &cjs_tables);
            let es = listed(Rules::Es, found.text, found.es, &es_tables);
            let whole = WholeReport { report, cjs, es };
            writeln!(output, "{whole}")
        }
        Err(refusal) => writeln!(output, "{}", ReportText(Err(refusal))),
    }
}
