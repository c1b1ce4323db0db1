//! Nodes of the walk and their events, entered in the tables.
ghost use Rattle.std.specs.Prelude.{◌≡◌, ◌<◌, length, MatchOption};
ghost use Rattle.cjs_law.specs.Events.{assign_right, each, events, once, visit_assign_expr};
ghost use Rattle.cjs_law.specs.Events.{visit_call_expr, visit_exports_right_expr, visit_prop, visit_var_decl};
ghost use Rattle.cjs_parse.specs.Moving.{MovesOn, bound_by};
ghost use Rattle.cjs_rules.specs.Nodes.{Finds, here, section};
ghost use Rattle.tree.specs.Subject.{tree_rows};

use crate::visit::{
    visit_call_expr, visit_declarator, visit_exports_call, visit_member_assign, visit_prop,
};
use crate::walk::Walk;
use cjs_rules::exports_object::is_module_exports_or_exports;
use kinds::kind::Kind;
use table::Full;
use tree::Node;

/// The right side of an Assign, where its mark is 0.
#[tactic(auto, using(cjs_rules::proofs::FirstTwo::at_most_one))]
fn get_assign_right<'t, 'a>(assign: Node<'t, 'a>) -> Option<Node<'t, 'a>>
    ensures finds { Finds assign.entry (assign_right (here assign.entry)) result }
    ensures below { MatchOption result (Unit {0}) (λ right. (assign.entry.row < right.row) × (right.row < length (tree_rows assign.entry.tree.now))) }
{
    if assign.is_marked() {
        return None;
    }
    assign.first_two().map(|(_target, right)| right)
}

impl Walk<'_, '_, '_> {
    /// Binds what the Declarators of a VarDecl declare.
    fn visit_var_decl(&mut self, declaration: Node) -> Result<(), Full>
        ensures { MovesOn self.old (visit_var_decl (section declaration.entry) (here declaration.entry).kids) result self.new }
    {
        for declarator in declaration.children() {
            self.perform(visit_declarator(declarator))?;
        }
        Ok(())
    }

    /// Enters the properties of an Object that is assigned to the exports object.
    // One loop over a closure for both would want a clause that names what the closure answers, longer than the loop.
    fn visit_props(&mut self, object: Node) -> Result<(), Full>
        ensures { MovesOn self.old (each (visit_prop (section object.entry)) (here object.entry).kids) result self.new }
    {
        for property in object.children() {
            self.perform(visit_prop(property))?;
        }
        Ok(())
    }

    /// Enters what the right side of an assignment to the exports object asks for.
    #[tactic(auto, using(crate::proofs::Right::not_handed_on, crate::proofs::Steps::moved_none))]
    fn visit_exports_right_expr(&mut self, right: Node) -> Result<(), Full>
        ensures { MovesOn self.old (visit_exports_right_expr (section right.entry) (here right.entry).row (here right.entry).kids) result self.new }
    {
        // `map_or` for the inner `match` was tried: its closure and this function are a cycle of two measures, and what
        // the closure leaves of the walk has no name that a proof may cite.
        match right.kind() {
            Kind::Assign => match get_assign_right(right) {
                Some(inner) => self.visit_exports_right_expr(inner),
                None => Ok(()),
            },
            Kind::Object => self.visit_props(right),
            _ => self.perform(visit_exports_call(right)),
        }
    }

    /// Enters what a Call asks for.
    fn visit_call_expr(&mut self, call: Node) -> Result<(), Full>
        ensures { MovesOn self.old (once (visit_call_expr (section call.entry) (bound_by self.old) (here call.entry).kids)) result self.new }
    {
        let event = visit_call_expr(self.bindings(), call);
        self.perform(event)
    }

    /// Enters what an Assign of mark 0 asks for.
    #[tactic(auto, using(crate::proofs::Firsts::to_exports, crate::proofs::Moving::moves_as))]
    fn visit_assign_expr(&mut self, assign: Node) -> Result<(), Full>
        ensures { MovesOn self.old (visit_assign_expr (section assign.entry) (bound_by self.old) (here assign.entry).kids) result self.new }
    {
        match assign.first_two() {
            Some((target, right)) if is_module_exports_or_exports(target) => {
                self.visit_exports_right_expr(right)
            }
            _ => {
                let event = visit_member_assign(self.bindings(), assign);
                self.perform(event)
            }
        }
    }

    /// Enters what a node asks for.
    #[tactic(auto, using(crate::proofs::Steps::moved_none))]
    pub(crate) fn visit(&mut self, node: Node) -> Result<(), Full>
        ensures { MovesOn self.old (events (section node.entry) (bound_by self.old) (here node.entry).row (here node.entry).kids) result self.new }
    {
        match node.kind() {
            Kind::VarDecl => self.visit_var_decl(node),
            Kind::Call => self.visit_call_expr(node),
            Kind::Assign if !node.is_marked() => self.visit_assign_expr(node),
            _ => Ok(()),
        }
    }
}
