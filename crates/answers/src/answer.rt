//! The lines that the blocks of a stream get, and the tables in which their analyses work.
ghost use Rattle.std.specs.Prelude.{◌≡◌, ℕ, List, OnOk};
ghost use Rattle.answers.specs.Answers.{LinesAfter, Tried, WritesLine, WritesFound, is_whole, lines_by};
ghost use Rattle.block_lines.specs.Rooms.{is_within};
ghost use Rattle.findings.specs.Tables.{room_of};
ghost use Rattle.tree.specs.Subject.{TreeOf, tree_module};

use block_lines::{Analyses, Line, analyse_tree, answers_line, findings_line};
use findings::FindingsTables;
use std::io;
use std::io::Write;
use tree::{Tree, TreeFault};

/// Which lines the blocks of a stream get: those of `findings`, or those of `answers`.
#[derive(Clone, Copy, PartialEq, Eq, Debug)]
pub enum LineKind {
    Findings,
    Answers,
}

/// How the blocks of a stream are answered: the lines that they get, and tables for each of the two analyses, which may
/// hold anything before.
// An analysis empties every row of its tables, and few blocks need many rows: a block is analysed in small tables first,
// and in the others where these have no row left.
#[derive(Drop)]
pub struct BlockLines<'t> {
    pub kind: LineKind,
    pub cjs: FindingsTables<'t>,
    pub es: FindingsTables<'t>,
    pub small_cjs: FindingsTables<'t>,
    pub small_es: FindingsTables<'t>,
}

/// Whether no table of the one has more rows than its like of the other.
fn is_within(small: &FindingsTables, large: &FindingsTables) -> bool
    ensures { result ≡ is_within (room_of small.now) (room_of large.now) }
{
    small.bindings.rows.len() <= large.bindings.rows.len()
        && small.exports.rows.len() <= large.exports.rows.len()
        && small.reexports.rows.len() <= large.reexports.rows.len()
        && small.unsafes.rows.len() <= large.unsafes.rows.len()
}

/// Whether more rows would have led to nothing else: no analysis lacked one.
fn is_whole(found: &Analyses) -> bool
    ensures { result ≡ is_whole found.now }
{
    found.cjs.is_ok() && found.es.is_ok()
}

/// Writes the line for a block by what was found in it and the tables that the analyses filled.
fn write_found<W: Write>(
    kind: LineKind,
    found: Result<Analyses, TreeFault>,
    cjs: &FindingsTables,
    es: &FindingsTables,
    output: &mut W,
) -> io::Result<()>
    ensures { OnOk result (WritesFound kind found.entry cjs.now es.now (W.contents output.old) (W.contents output.new)) }
{
    match kind {
        LineKind::Findings => {
            let line = Line(findings_line(found, cjs, es));
            writeln!(output, "{line}")
        }
        LineKind::Answers => {
            let names = Line(answers_line(found, cjs, es));
            writeln!(output, "{names}")
        }
    }
}

impl BlockLines<'_> {
    /// What is found in a tree in the small tables, where more rows would lead to nothing else.
    fn try_small<'a>(&mut self, tree: &Tree<'a>) -> Option<Analyses<'a>>
        ensures { (block : List ℕ) → TreeOf block tree.now → tree_module tree.now ≡ 0 → Tried block self.old result self.new }
    {
        if !is_within(&self.small_cjs, &self.cjs) || !is_within(&self.small_es, &self.es) {
            return None;
        }
        let found = analyse_tree(tree, &mut self.small_cjs, &mut self.small_es);
        if is_whole(&found) { Some(found) } else { None }
    }

    /// Writes the line for a block.
    pub fn write_line<W: Write>(&mut self, block: &[u8], output: &mut W) -> io::Result<()>
        ensures line { OnOk result (WritesLine (lines_by self.old block.now) (W.contents output.old) (W.contents output.new)) }
        ensures tables { LinesAfter block.now self.old self.new }
    {
        // One check serves both pairs of tables.
        let tree = match Tree::check(0, block) {
            Ok(tree) => tree,
            Err(refusal) => {
                return write_found(self.kind, Err(refusal), &self.cjs, &self.es, output);
            }
        };
        match self.try_small(&tree) {
            Some(found) => write_found(
                self.kind,
                Ok(found),
                &self.small_cjs,
                &self.small_es,
                output,
            ),
            None => {
                let found = analyse_tree(&tree, &mut self.cjs, &mut self.es);
                write_found(self.kind, Ok(found), &self.cjs, &self.es, output)
            }
        }
    }
}
