//! Returned expressions.
ghost use Rattle.std.specs.Prelude.{◌≡◌};
ghost use Rattle.cjs_rules.specs.Nodes.{Finds, final, here};
ghost use Rattle.cjs_rules.specs.Rules.{get_arrow_return_expr, get_block_stmt_return_expr, get_function_return_expr, get_prop_return_expr, get_value_return_expr};

use kinds::kind::Kind;
use tree::Node;

/// The last child of a node. It is public since the ES analysis calls it too.
pub fn last_child<'t, 'a>(node: Node<'t, 'a>) -> Option<Node<'t, 'a>>
    ensures { Finds node.entry (final (here node.entry).kids) result }
{
    node.children().last()
}

/// The expression that a block's only statement returns.
pub fn get_block_stmt_return_expr<'t, 'a>(block: Node<'t, 'a>) -> Option<Node<'t, 'a>>
    ensures { Finds block.entry (get_block_stmt_return_expr (here block.entry)) result }
{
    if !block.is(Kind::Block) {
        return None;
    }
    let mut statements = block.children();
    let statement = statements.next()?;
    if statements.next().is_some() || !statement.is(Kind::Return) {
        return None;
    }
    statement.children().next()
}

/// What a function's block returns.
fn get_function_return_expr<'t, 'a>(function: Node<'t, 'a>) -> Option<Node<'t, 'a>>
    ensures { Finds function.entry (get_function_return_expr (here function.entry)) result }
{
    let body = last_child(function)?;
    get_block_stmt_return_expr(body)
}

/// What an arrow function returns: its body, or what its block returns.
fn get_arrow_return_expr<'t, 'a>(arrow: Node<'t, 'a>) -> Option<Node<'t, 'a>>
    ensures { Finds arrow.entry (get_arrow_return_expr (here arrow.entry)) result }
{
    let body = last_child(arrow)?;
    if body.is(Kind::Block) {
        get_block_stmt_return_expr(body)
    } else {
        Some(body)
    }
}

/// What a function that stands as a value returns.
fn get_value_return_expr<'t, 'a>(value: Node<'t, 'a>) -> Option<Node<'t, 'a>>
    ensures { Finds value.entry (get_value_return_expr (here value.entry)) result }
{
    match value.kind() {
        Kind::FnExpr => {
            let function = last_child(value)?;
            get_function_return_expr(function)
        }
        Kind::Arrow => get_arrow_return_expr(value),
        _ => None,
    }
}

/// What the function in a property returns.
#[tactic(auto, using(crate::proofs::FirstTwo::at_most_one))]
pub fn get_prop_return_expr<'t, 'a>(property: Node<'t, 'a>) -> Option<Node<'t, 'a>>
    ensures { Finds property.entry (get_prop_return_expr (here property.entry)) result }
{
    let (_key, value) = property.first_two()?;
    match property.kind() {
        Kind::Method => get_function_return_expr(value),
        Kind::KeyValue => get_value_return_expr(value),
        _ => None,
    }
}
