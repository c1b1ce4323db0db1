//! Properties of objects.
ghost use Rattle.std.specs.Prelude.{◌≡◌, Some};
ghost use Rattle.cjs_rules.specs.Names.{shown};
ghost use Rattle.cjs_rules.specs.Nodes.{Finds, here, place, section, seen, text_of};
ghost use Rattle.cjs_rules.specs.Rules.{get_object_define_get_prop, get_prop_name, has_supported_get_prop, is_get, is_harmless_getter, is_supported_get_prop, is_supported_get_value, is_supported_object_prop, is_valid_object_define_obj_lit, prop_name_from_key};

use crate::harmless::{
    is_non_side_effect_block_stmt, is_non_side_effect_block_stmt_or_expr,
    is_non_side_effect_function,
};
use crate::prop_name::{Part, PropName};
use crate::returned::last_child;
use crate::words::is_plain_str;
use kinds::kind::Kind;
use text::is_word;
use tree::Node;

/// The text of a node, with its place.
fn part_of<'a>(node: Node<'_, 'a>) -> Part<'a>
    ensures place { result.place ≡ place (here node.entry) }
    ensures bytes { result.bytes.now ≡ text_of (section node.entry) (here node.entry) }
{
    Part {
        place: node.place(),
        bytes: node.text(),
    }
}

/// The name that a key gives.
fn prop_name_from_key<'a>(key: Node<'_, 'a>) -> Option<PropName<'a>>
    ensures { shown result ≡ prop_name_from_key (section key.entry) (Some (here key.entry)) }
{
    if key.is(Kind::Ident) {
        Some(PropName::Ident(part_of(key)))
    } else if is_plain_str(key) {
        Some(PropName::Str(part_of(key)))
    } else {
        None
    }
}

/// The name of a property.
pub fn get_prop_name<'a>(property: Node<'_, 'a>) -> Option<PropName<'a>>
    ensures { shown result ≡ get_prop_name (section property.entry) (here property.entry) }
{
    match property.kind() {
        Kind::Shorthand => Some(PropName::Ident(part_of(property))),
        Kind::KeyValue | Kind::Getter | Kind::Setter | Kind::Method => {
            let key = property.children().next()?;
            prop_name_from_key(key)
        }
        _ => None,
    }
}

/// Whether a name is `get`.
fn is_get(name: Option<PropName>) -> bool
    ensures { result ≡ is_get (shown name.entry) }
{
    match name {
        Some(PropName::Ident(part) | PropName::Str(part)) => is_word(part.bytes, b"get"),
        None => false,
    }
}

/// The first property of an object whose name is `get`.
pub fn get_object_define_get_prop<'t, 'a>(object: Node<'t, 'a>) -> Option<Node<'t, 'a>>
    ensures { Finds object.entry (get_object_define_get_prop (section object.entry) (here object.entry).kids) result }
{
    object
        .children()
        .find(|property| is_get(get_prop_name(*property)))
}

/// Whether a function that stands as a value does no more than return a harmless expression.
fn is_supported_get_value(value: Node) -> bool
    ensures { result ≡ is_supported_get_value (here value.entry) }
{
    match value.kind() {
        Kind::FnExpr => last_child(value).is_some_and(is_non_side_effect_function),
        Kind::Arrow => last_child(value).is_some_and(is_non_side_effect_block_stmt_or_expr),
        _ => false,
    }
}

/// Whether the function in a property does no more than return a harmless expression.
#[tactic(auto, using(crate::proofs::FirstTwo::at_most_one))]
fn is_supported_get_prop(property: Node) -> bool
    ensures { result ≡ is_supported_get_prop (here property.entry) }
{
    let Some((_key, value)) = property.first_two() else {
        return false;
    };
    match property.kind() {
        Kind::Method => is_non_side_effect_function(value),
        Kind::KeyValue => is_supported_get_value(value),
        _ => false,
    }
}

/// Whether the `get` of an object, if it has one, does no more than return a harmless expression.
fn has_supported_get_prop(object: Node) -> bool
    ensures { result ≡ has_supported_get_prop (section object.entry) (here object.entry).kids }
{
    get_object_define_get_prop(object).is_none_or(is_supported_get_prop)
}

/// Whether a node is an object with a supported `get` or with none.
pub fn is_valid_object_define_obj_lit(node: Node) -> bool
    ensures { result ≡ is_valid_object_define_obj_lit (section node.entry) (here node.entry) }
{
    node.is(Kind::Object) && has_supported_get_prop(node)
}

/// Whether a getter does no more than return a harmless expression.
#[tactic(auto, using(crate::proofs::FirstTwo::at_most_one))]
fn is_harmless_getter(getter: Node) -> bool
    ensures { result ≡ is_harmless_getter (here getter.entry) }
{
    getter
        .first_two()
        .is_some_and(|(_key, body)| is_non_side_effect_block_stmt(body))
}

/// Whether a property of an object that is assigned to the exports object is safe to read.
pub fn is_supported_object_prop(property: Node) -> bool
    ensures { result ≡ is_supported_object_prop (here property.entry) }
{
    match property.kind() {
        Kind::Method | Kind::KeyValue | Kind::Shorthand => true,
        Kind::Getter => is_harmless_getter(property),
        _ => false,
    }
}
