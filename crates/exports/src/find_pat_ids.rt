//! The names that patterns bind.
ghost use Rattle.std.specs.Prelude.{◌≡◌};
ghost use Rattle.cjs_rules.specs.Nodes.{here, seen};
ghost use Rattle.exports.specs.Append.{Lists};
ghost use Rattle.exports.specs.Beneath.{Beneath};
ghost use Rattle.exports.specs.BoundNames.{bound_in, bound_names, of_declarators, property_names};

use crate::append::PlaceList;
use kinds::kind::Kind;
use table::Full;
use tree::Node;

/// The pattern that a property of an object pattern binds.
#[tactic(auto, using(cjs_rules::proofs::FirstTwo::at_most_one))]
fn property_pattern<'t, 'a>(property: Node<'t, 'a>) -> Option<Node<'t, 'a>>
    ensures names { bound_in (seen result) ≡ property_names (here property.entry) }
    ensures beneath { Beneath property.entry result }
{
    match property.kind() {
        Kind::KeyValuePat => property.first_two().map(|(_, value)| value),
        Kind::AssignPatProp | Kind::RestPat => property.children().next(),
        _ => None,
    }
}

/// Appends the names that a pattern binds.
fn find_pat_ids(pattern: Node, names: &mut PlaceList) -> Result<(), Full>
    ensures { Lists (bound_names (here pattern.entry)) names.old result names.new }
{
    match pattern.kind() {
        Kind::Ident => names.append(pattern.place()),
        Kind::ArrayPat => {
            for element in pattern.children() {
                find_pat_ids(element, names)?;
            }
            Ok(())
        }
        Kind::ObjectPat => {
            for property in pattern.children() {
                if let Some(value) = property_pattern(property) {
                    find_pat_ids(value, names)?;
                }
            }
            Ok(())
        }
        // `map_or` was tried: its closure is then a part of the recursion, and needs a measure of its own.
        Kind::RestPat | Kind::AssignPat => match pattern.children().next() {
            Some(wrapped) => find_pat_ids(wrapped, names),
            None => Ok(()),
        },
        _ => Ok(()),
    }
}

/// Appends the names that the declarators of a declaration bind.
pub(crate) fn find_declarator_ids(declaration: Node, names: &mut PlaceList) -> Result<(), Full>
    ensures { Lists (of_declarators (here declaration.entry).kids) names.old result names.new }
{
    for declarator in declaration.children() {
        if let Some(pattern) = declarator.children().next() {
            find_pat_ids(pattern, names)?;
        }
    }
    Ok(())
}
