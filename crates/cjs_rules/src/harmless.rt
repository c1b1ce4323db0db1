//! Harmless expressions: those without a side effect.
ghost use Rattle.std.specs.Prelude.{◌≡◌};
ghost use Rattle.cjs_rules.specs.Nodes.{here};
ghost use Rattle.cjs_rules.specs.Rules.{is_non_side_effect_block_stmt, is_non_side_effect_block_stmt_or_expr, is_non_side_effect_expr, is_non_side_effect_function, is_non_side_effect_member_prop, is_simple};

use crate::returned::{get_block_stmt_return_expr, last_child};
use kinds::kind::Kind;
use tree::Node;

/// Whether a node is a name, a literal or an object.
// Seen in the crate: the proofs of the modules that pass `is_non_side_effect_expr` by name speak of what it calls.
pub(crate) fn is_simple(node: Node) -> bool
    ensures { result ≡ is_simple (here node.entry).row }
{
    matches!(
        node.kind(),
        Kind::Ident | Kind::Str | Kind::Num | Kind::OtherLit | Kind::Object
    )
}

/// Whether the expression at a node has no side effect.
// A closure over the two children would be a part of the recursion, with a measure of its own.
#[cycle(harmless_values)]
pub fn is_non_side_effect_expr(node: Node) -> bool
    ensures { result ≡ is_non_side_effect_expr (here node.entry) }
{
    if !node.is(Kind::Member) {
        return is_simple(node);
    }
    let Some((object, property)) = node.first_two() else {
        return false;
    };
    is_non_side_effect_expr(object) && is_non_side_effect_member_prop(property)
}

/// Whether the property of a member expression has no side effect: a computed one must have a harmless key.
#[cycle(harmless_values)]
fn is_non_side_effect_member_prop(property: Node) -> bool
    ensures { result ≡ is_non_side_effect_member_prop (here property.entry) }
{
    if !property.is(Kind::Computed) {
        return true;
    }
    property
        .children()
        .next()
        .is_some_and(is_non_side_effect_expr)
}

/// Whether a block does no more than return a harmless expression.
pub(crate) fn is_non_side_effect_block_stmt(block: Node) -> bool
    ensures { result ≡ is_non_side_effect_block_stmt (here block.entry) }
{
    get_block_stmt_return_expr(block).is_some_and(is_non_side_effect_expr)
}

/// Whether the body of an arrow function is harmless, or a block that does no more than return what is.
pub(crate) fn is_non_side_effect_block_stmt_or_expr(body: Node) -> bool
    ensures { result ≡ is_non_side_effect_block_stmt_or_expr (here body.entry) }
{
    if body.is(Kind::Block) {
        is_non_side_effect_block_stmt(body)
    } else {
        is_non_side_effect_expr(body)
    }
}

/// Whether a function has a block that does no more than return a harmless expression.
pub(crate) fn is_non_side_effect_function(function: Node) -> bool
    ensures { result ≡ is_non_side_effect_function (here function.entry) }
{
    last_child(function).is_some_and(is_non_side_effect_block_stmt)
}
