//! Require values, and what names are bound to.
// Functions, as the ported source has them: the node is the subject, and the bindings are asked for a name.
ghost use Rattle.std.specs.Prelude.{◌≡◌};
ghost use Rattle.cjs_parse.specs.Bound.{bound_in, key_name};
ghost use Rattle.cjs_rules.specs.Nodes.{Finds, any_of_kind, here, section};
ghost use Rattle.cjs_rules.specs.Rules.{get_export_require_arg, get_member_require_value};
ghost use Rattle.cjs_rules.specs.Rules.{none_or_exports, required_or_bound};
ghost use Rattle.kinds.specs.Kinds.{spread};
ghost use Rattle.tree.specs.Children.{left};
ghost use Rattle.tree.specs.Subject.{tree_text};

use crate::bindings::Bindings;
use cjs_rules::exports_object::is_exports_expr;
use cjs_rules::require::get_expr_require_value;
use cjs_rules::words::is_ident;
use kinds::kind::Kind;
use text::Place;
use tree::{Children, Node};

/// The specifier of a member expression `o[key]`, with o bound to it.
#[tactic(auto, using(crate::proofs::Firsts::few_require))]
pub(crate) fn get_member_require_value(
    bindings: Bindings,
    member: Node,
    key: &[u8],
) -> Option<Place>
    ensures { result ≡ get_member_require_value (section member.entry) (bound_in bindings.entry) key.now (here member.entry) }
{
    if !member.is(Kind::Member) {
        return None;
    }
    let (object, property) = member.first_two()?;
    if !object.is(Kind::Ident) {
        return None;
    }
    let value = bindings.bound(object)?;
    if !property.is(Kind::Computed) {
        return None;
    }
    let name = property.children().next()?;
    is_ident(name, key).then_some(value)
}

/// The name in the brackets of a property `[k]`.
pub(crate) fn get_key_name<'t, 'a>(property: Node<'t, 'a>) -> Option<Node<'t, 'a>>
    ensures { Finds property.entry (key_name (here property.entry)) result }
{
    if !property.is(Kind::Computed) {
        return None;
    }
    property.children().next().filter(|k| k.is(Kind::Ident))
}

/// Whether an argument is a Spread.
fn has_spread_argument(mut args: Children) -> bool
    ensures { result ≡ any_of_kind spread (left args.entry) }
{
    args.any(|arg| arg.is(Kind::Spread))
}

/// Whether the arguments after the first are none, or `exports` alone.
fn is_for_exports(mut others: Children) -> bool
    ensures { result ≡ none_or_exports (tree_text others.entry.tree.now) (left others.entry) }
{
    match others.next() {
        Some(other) => is_exports_expr(other) && others.next().is_none(),
        None => true,
    }
}

/// The specifier that an expression requires, or that it is bound to as a name.
fn get_required_or_bound(bindings: Bindings, expr: Node) -> Option<Place>
    ensures { result ≡ required_or_bound (section expr.entry) (bound_in bindings.entry) (here expr.entry) }
{
    match get_expr_require_value(expr) {
        Some(value) => Some(value),
        None if expr.is(Kind::Ident) => bindings.bound(expr),
        None => None,
    }
}

/// The specifier that a call of a helper that copies exports has as its argument.
pub(crate) fn get_export_require_arg(bindings: Bindings, mut args: Children) -> Option<Place>
    ensures { result ≡ get_export_require_arg (tree_text args.entry.tree.now) (bound_in bindings.entry) (left args.entry) }
{
    if has_spread_argument(args) {
        return None;
    }
    let first = args.next()?;
    if is_for_exports(args) {
        get_required_or_bound(bindings, first)
    } else {
        None
    }
}
