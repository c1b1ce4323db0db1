//! What each node that the walk acts at asks for.
// Functions, as the ported source has them: the node is the subject, and the bindings are asked for a name.
ghost use Rattle.std.specs.Prelude.{◌≡◌};
ghost use Rattle.cjs_law.specs.Events.{export_if, visit_call_expr, visit_declarator, visit_export_call};
ghost use Rattle.cjs_law.specs.Events.{visit_exports_call, visit_member_target, visit_object_define, visit_prop};
ghost use Rattle.cjs_parse.specs.Bound.{bound_in, of_two};
ghost use Rattle.cjs_rules.specs.Nodes.{here, section};

use crate::bindings::Bindings;
use crate::bound::{get_export_require_arg, get_key_name, get_member_require_value};
use cjs_law::Event;
use cjs_rules::calls::{is_export_callee, is_object_define};
use cjs_rules::exports_object::{get_member_prop_text, is_module_exports_or_exports};
use cjs_rules::prop_name::PropName;
use cjs_rules::properties::{
    get_object_define_get_prop, get_prop_name, is_supported_object_prop,
    is_valid_object_define_obj_lit,
};
use cjs_rules::require::get_expr_require_value;
use cjs_rules::returned::get_prop_return_expr;
use kinds::kind::Kind;
use text::Place;
use tree::Node;

/// What a Declarator binds.
#[tactic(auto, using(cjs_rules::proofs::FirstTwo::at_most_one))]
pub(crate) fn visit_declarator(declarator: Node) -> Option<Event>
    ensures { result ≡ visit_declarator (section declarator.entry) (here declarator.entry) }
{
    let (id, init) = declarator.first_two()?;
    if !id.is(Kind::Ident) {
        return None;
    }
    let value = get_expr_require_value(init)?;
    let name = id.place();
    Some(Event::Bind { name, value })
}

/// Exported where a test holds, and unsafe otherwise.
fn export_if(safe: bool, place: Place) -> Event
    ensures { result ≡ export_if safe place }
{
    if safe {
        Event::Export(place)
    } else {
        Event::Unsafe(place)
    }
}

/// What a call of `Object.defineProperty` on the exports object asks for, with its second and its third argument.
fn visit_object_define(bindings: Bindings, call: Node) -> Option<Event>
    ensures { result ≡ of_two 2 (visit_object_define (section call.entry) (bound_in bindings.entry)) (here call.entry).kids }
{
    // `is_object_define` takes the first four children too: a method for four would serve these two alone.
    let mut parts = call.children();
    let _callee = parts.next()?;
    let _object = parts.next()?;
    let name = parts.next()?;
    let descriptor = parts.next()?;
    if name.is(Kind::Str) {
        let safe = is_valid_object_define_obj_lit(descriptor);
        return Some(export_if(safe, name.place()));
    }
    if !name.is(Kind::Ident) || !descriptor.is(Kind::Object) {
        return None;
    }
    let getter = get_object_define_get_prop(descriptor)?;
    let returned = get_prop_return_expr(getter)?;
    let value = get_member_require_value(bindings, returned, name.text())?;
    Some(Event::Reexport(value))
}

/// What a call of a helper that copies exports asks for.
#[tactic(auto, using(crate::proofs::Firsts::copied))]
fn visit_export_call(bindings: Bindings, call: Node) -> Option<Event>
    ensures { result ≡ visit_export_call (section call.entry) (bound_in bindings.entry) (here call.entry).kids }
{
    let mut parts = call.children();
    let callee = parts.next()?;
    if !is_export_callee(callee) {
        return None;
    }
    let value = get_export_require_arg(bindings, parts)?;
    Some(Event::Reexport(value))
}

/// What a Call asks for.
pub(crate) fn visit_call_expr(bindings: Bindings, call: Node) -> Option<Event>
    ensures { result ≡ visit_call_expr (section call.entry) (bound_in bindings.entry) (here call.entry).kids }
{
    if is_object_define(call) {
        visit_object_define(bindings, call)
    } else {
        visit_export_call(bindings, call)
    }
}

/// What a property of an Object that is assigned to the exports object asks for.
pub(crate) fn visit_prop(property: Node) -> Option<Event>
    ensures { result ≡ visit_prop (section property.entry) (here property.entry) }
{
    if property.is(Kind::Spread) {
        let spread = property.children().next()?;
        let value = get_expr_require_value(spread)?;
        return Some(Event::Reexport(value));
    }
    let (PropName::Ident(name) | PropName::Str(name)) = get_prop_name(property)?;
    let safe = is_supported_object_prop(property);
    Some(export_if(safe, name.place))
}

/// What a Call that is assigned to the exports object asks for.
pub(crate) fn visit_exports_call(call: Node) -> Option<Event>
    ensures { result ≡ visit_exports_call (section call.entry) (here call.entry) }
{
    let value = get_expr_require_value(call)?;
    Some(Event::Replace(value))
}

/// What an assignment to a property of the exports object asks for.
#[tactic(auto, using(cjs_rules::proofs::FirstTwo::at_most_one, crate::proofs::Firsts::few_reach_member))]
pub(crate) fn visit_member_assign(bindings: Bindings, assign: Node) -> Option<Event>
    ensures { result ≡ of_two 0 (visit_member_target (section assign.entry) (bound_in bindings.entry)) (here assign.entry).kids }
{
    let (target, right) = assign.first_two()?;
    if !target.is(Kind::Member) {
        return None;
    }
    let (object, property) = target.first_two()?;
    if !is_module_exports_or_exports(object) {
        return None;
    }
    if let Some(name) = get_member_prop_text(property) {
        return Some(Event::Export(name));
    }
    let key = get_key_name(property)?;
    let value = get_member_require_value(bindings, right, key.text())?;
    Some(Event::Reexport(value))
}
