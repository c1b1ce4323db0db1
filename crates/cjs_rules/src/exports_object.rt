//! The exports object: `exports` and `module.exports`.
ghost use Rattle.std.specs.Prelude.{◌≡◌};
ghost use Rattle.cjs_rules.specs.Nodes.{here, section};
ghost use Rattle.cjs_rules.specs.Rules.{get_member_prop_text, is_exports_expr, is_module_exports_expr, is_module_exports_member, is_module_exports_or_exports};

use crate::words::{is_ident, is_plain_str};
use kinds::kind::Kind;
use text::{Place, is_word};
use tree::Node;

/// The place of a member property's text.
pub fn get_member_prop_text(property: Node) -> Option<Place>
    ensures { result ≡ get_member_prop_text (section property.entry) (here property.entry) }
{
    match property.kind() {
        Kind::Ident => Some(property.place()),
        Kind::Computed => {
            let key = property.children().next()?;
            is_plain_str(key).then_some(key.place())
        }
        _ => None,
    }
}

/// Whether a member expression is `module.exports`.
// `is_some_and` of the two children and of the name was tried, in one chain and after the first `let`: `search` stops
// at its limits with the return open.
#[tactic(auto, using(crate::proofs::FirstTwo::at_most_one))]
pub fn is_module_exports_member(member: Node) -> bool
    ensures { result ≡ is_module_exports_member (section member.entry) (here member.entry) }
{
    let Some((object, property)) = member.first_two() else {
        return false;
    };
    let Some(name) = get_member_prop_text(property) else {
        return false;
    };
    is_ident(object, b"module") && is_word(name.part(member.text_section()), b"exports")
}

/// Whether a node is the name `exports`.
pub fn is_exports_expr(node: Node) -> bool
    ensures { result ≡ is_exports_expr (section node.entry) (here node.entry) }
{
    is_ident(node, b"exports")
}

/// Whether a node is a member expression `module.exports`.
fn is_module_exports_expr(node: Node) -> bool
    ensures { result ≡ is_module_exports_expr (section node.entry) (here node.entry) }
{
    node.is(Kind::Member) && is_module_exports_member(node)
}

/// Whether a node is the exports object, under either name.
pub fn is_module_exports_or_exports(node: Node) -> bool
    ensures { result ≡ is_module_exports_or_exports (section node.entry) (here node.entry) }
{
    is_module_exports_expr(node) || is_exports_expr(node)
}
