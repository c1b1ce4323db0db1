//! Require values.
ghost use Rattle.std.specs.Prelude.{◌≡◌};
ghost use Rattle.cjs_rules.specs.Nodes.{here, section};
ghost use Rattle.cjs_rules.specs.Rules.{get_call_expr_require_value, get_expr_require_value};

use crate::words::{is_ident, is_plain_str};
use kinds::kind::Kind;
use text::Place;
use tree::Node;

/// The place of the text that a call requires, itself or in the calls of `_interopRequireWildcard` that it is.
#[tactic(auto, using(crate::proofs::FirstTwo::at_most_one, crate::proofs::Required::by_argument))]
fn get_call_expr_require_value(call: Node) -> Option<Place>
    ensures { result ≡ get_call_expr_require_value (section call.entry) (here call.entry).kids }
{
    let (callee, arg) = call.first_two()?;
    if is_ident(callee, b"require") {
        is_plain_str(arg).then_some(arg.place())
    } else if is_ident(callee, b"_interopRequireWildcard") && arg.is(Kind::Call) {
        get_call_expr_require_value(arg)
    } else {
        None
    }
}

/// The place of the text that an expression requires.
pub fn get_expr_require_value(expr: Node) -> Option<Place>
    ensures { result ≡ get_expr_require_value (section expr.entry) (here expr.entry) }
{
    if expr.is(Kind::Call) {
        get_call_expr_require_value(expr)
    } else {
        None
    }
}
