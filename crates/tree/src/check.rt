//! The check of a tree block.
ghost use Rattle.std.specs.Prelude.{◌≡◌, None, Ok, Err};
ghost use Rattle.tree.specs.Shaped.{ChildrenFitByPlace};
ghost use Rattle.tree.specs.Subject.{TreeOf, tree_module};
ghost use Rattle.tree.specs.Verdict.{Lawful, OneVerdict, Verdict, described, fault_of};

use crate::layout::sections_of;
use crate::refusal::TreeFault;
use crate::tree::Tree;

impl<'a> Tree<'a> {
    /// Checks a block, which belongs to a module. It reads nothing outside the block, and takes time in proportion to
    /// the block where its texts do not overlap.
    // A module and its block stay two arguments of the public functions: every caller would build a struct of the two
    // at the call.
    #[tactic(auto, using(crate::proofs::Verdicts::one_verdict, crate::proofs::Positions::children_fit_by_place))]
    pub fn check(module: u32, block: &'a [u8]) -> Result<Tree<'a>, TreeFault>
        ensures verdict { Verdict «module» block.now (described (fault_of result)) }
        ensures accepts { Lawful block.now → fault_of result ≡ None }
        ensures one { OneVerdict }
        ensures shapes { ChildrenFitByPlace }
        ensures tree { elim result [ Ok t ↦ TreeOf block.now t × (tree_module t ≡ «module») | Err f ↦ Unit {0} ] }
    {
        let sections = sections_of(block).ok_or(TreeFault::Layout { module })?;
        let rows = sections
            .rows
            .nested()
            .map_err(|row| TreeFault::End { module, row })?;
        if let Some(row) = rows.first_deep() {
            return Err(TreeFault::Depth { module, row });
        }
        if let Some(row) = rows.first_unshaped() {
            return Err(TreeFault::Shape { module, row });
        }
        if let Some(row) = rows.rows.first_unlawful_text(sections.text) {
            return Err(TreeFault::Text { module, row });
        }
        Ok(Tree {
            module,
            rows,
            text: sections.text,
        })
    }
}
