//! Calls: of `Object.defineProperty`, and of the helpers that copy exports.
ghost use Rattle.std.specs.Prelude.{◌≡◌};
ghost use Rattle.cjs_rules.specs.Nodes.{Finds, here, section};
ghost use Rattle.cjs_rules.specs.Rules.{get_callee_member_expr, is_export_callee, is_export_member, is_object_define, is_object_define_callee, is_star};

use crate::exports_object::is_module_exports_or_exports;
use crate::words::is_ident;
use kinds::kind::Kind;
use tree::Node;

/// The member expression of a callee: the callee itself, or that of `(0, member)`.
pub fn get_callee_member_expr<'t, 'a>(callee: Node<'t, 'a>) -> Option<Node<'t, 'a>>
    ensures { Finds callee.entry (get_callee_member_expr (here callee.entry)) result }
{
    if callee.is(Kind::Member) {
        return Some(callee);
    }
    if !callee.is(Kind::Paren) {
        return None;
    }
    let seq = callee.children().next()?;
    if !seq.is(Kind::Seq) {
        return None;
    }
    // One iterator gives both items and that no third comes; after `first_two` the children would be asked again.
    let mut items = seq.children();
    let zero = items.next()?;
    let member = items.next()?;
    if items.next().is_some() {
        return None;
    }
    (zero.is(Kind::Num) && zero.is_marked() && member.is(Kind::Member)).then_some(member)
}

/// Whether a callee is `Object.defineProperty`.
// `is_some_and` of the two children was tried, in one chain and after the first `let`: `search` stops at its limits
// with the return open.
#[tactic(auto, using(crate::proofs::FirstTwo::at_most_one))]
fn is_object_define_callee(callee: Node) -> bool
    ensures { result ≡ is_object_define_callee (section callee.entry) (here callee.entry) }
{
    let Some(member) = get_callee_member_expr(callee) else {
        return false;
    };
    let Some((object, property)) = member.first_two() else {
        return false;
    };
    is_ident(object, b"Object") && is_ident(property, b"defineProperty")
}

/// Whether a call is one of `Object.defineProperty` on the exports object.
// A method that gives the first four children would serve this function and cjs_parse's `visit_object_define` alone.
pub fn is_object_define(call: Node) -> bool
    ensures { result ≡ is_object_define (section call.entry) (here call.entry).kids }
{
    let mut parts = call.children();
    let (Some(callee), Some(object), Some(name), Some(descriptor)) = (
        parts.next(),
        parts.next(),
        parts.next(),
        parts.next(),
    ) else {
        return false;
    };
    is_object_define_callee(callee)
        && is_module_exports_or_exports(object)
        && !name.is(Kind::Spread)
        && !descriptor.is(Kind::Spread)
}

/// Whether a node is an Ident that reads as a helper that copies exports.
fn is_star(node: Node) -> bool
    ensures { result ≡ is_star (section node.entry) (here node.entry) }
{
    is_ident(node, b"__exportStar") || is_ident(node, b"__export")
}

/// Whether a member expression names a helper that copies exports, as `tslib.__exportStar`.
#[tactic(auto, using(crate::proofs::FirstTwo::at_most_one))]
fn is_export_member(member: Node) -> bool
    ensures { result ≡ is_export_member (section member.entry) (here member.entry) }
{
    member.first_two().is_some_and(|(object, property)| object.is(Kind::Ident) && is_star(property))
}

/// Whether a callee is a helper that copies exports, by its name or as a member.
pub fn is_export_callee(callee: Node) -> bool
    ensures { result ≡ is_export_callee (section callee.entry) (here callee.entry) }
{
    match get_callee_member_expr(callee) {
        Some(member) => is_export_member(member),
        None => is_star(callee),
    }
}
