//! What the items of a module export and re-export.
ghost use Rattle.std.specs.Prelude.{◌≡◌};
ghost use Rattle.cjs_rules.specs.Nodes.{child, here, seen};
ghost use Rattle.exports.specs.Append.{ItemListed, ItemsListed, Lists, Ready, optional};
ghost use Rattle.exports.specs.Beyond.{declaration_names, default_names, item_names, specifier_names};
ghost use Rattle.exports.specs.ExportedNames.{each, identified, if_any, named, star_of};
ghost use Rattle.findings.specs.Program.{program_tree};
ghost use Rattle.tree.specs.Forest.{children};
ghost use Rattle.tree.specs.Subject.{tree_module, tree_rows};

use crate::append::PlaceList;
use crate::find_pat_ids::find_declarator_ids;
use cjs_rules::returned::last_child;
use findings::FindingsFault;
use findings::parsed_source::ProgramRef;
use kinds::kind::Kind;
use table::{Full, OrderedTable};
use text::Place;
use tree::Node;

/// The text of a node, if there is one.
fn named(node: Option<Node>) -> Option<Place>
    ensures { optional result ≡ if_any named (seen node.entry) }
{
    node.map(Node::place)
}

/// The text of an identifier, if there is one.
fn identified(node: Option<Node>) -> Option<Place>
    ensures { optional result ≡ if_any identified (seen node.entry) }
{
    named(node.filter(|name| name.is(Kind::Ident)))
}

/// The name that a specifier exports.
fn specifier_name(specifier: Node) -> Option<Place>
    ensures { optional result ≡ specifier_names (here specifier.entry) }
{
    match specifier.kind() {
        Kind::DefaultSpec => Some(Place::TEXTLESS),
        Kind::NamedSpec => named(last_child(specifier)),
        Kind::NamespaceSpec => named(specifier.children().next()),
        _ => None,
    }
}

/// The name that `export default` exports: none for a type declaration.
fn default_name(item: Node) -> Option<Place>
    ensures { optional result ≡ default_names (child 0 (here item.entry).kids) }
{
    match item.children().next() {
        Some(value) if value.is(Kind::TypeDecl) => None,
        _ => Some(Place::TEXTLESS),
    }
}

/// Appends the names that an exported declaration declares.
fn export_declaration(declaration: Node, names: &mut PlaceList) -> Result<(), Full>
    ensures { Lists (declaration_names (here declaration.entry)) names.old result names.new }
{
    match declaration.kind() {
        Kind::VarDecl | Kind::UsingDecl => find_declarator_ids(declaration, names),
        Kind::ClassDecl | Kind::FnDecl | Kind::TsEnum | Kind::TsModule => {
            names.append_if_any(identified(declaration.children().next()))
        }
        _ => Ok(()),
    }
}

/// Appends the names that the specifiers of `export { .. }` export.
fn export_specifiers(item: Node, names: &mut PlaceList) -> Result<(), Full>
    ensures { Lists (each specifier_names (here item.entry).kids) names.old result names.new }
{
    for specifier in item.children() {
        names.append_if_any(specifier_name(specifier))?;
    }
    Ok(())
}

/// Appends the names that an item exports.
fn export_names(item: Node, names: &mut PlaceList) -> Result<(), Full>
    ensures { Lists (item_names (here item.entry)) names.old result names.new }
{
    match item.kind() {
        // `map_or` with a closure that borrows `names` was tried: `search` leaves the return open.
        Kind::ExportDecl => match item.children().next() {
            Some(declaration) => export_declaration(declaration, names),
            None => Ok(()),
        },
        Kind::ExportNamed => export_specifiers(item, names),
        Kind::ExportDefault => names.append_if_any(default_name(item)),
        _ => Ok(()),
    }
}

/// Lists what an item exports and re-exports: `export *` re-exports a module, any other item exports names.
// A struct of the two lists would serve this function alone, and would name the lifetimes of both tables.
fn list_item(item: Node, names: &mut PlaceList, stars: &mut PlaceList) -> Result<(), Full>
    ensures { ItemListed (item_names (here item.entry)) (star_of (here item.entry)) names.old stars.old result names.new stars.new }
{
    if item.is(Kind::ExportAll) {
        stars.append_if_any(named(item.children().next()))
    } else {
        export_names(item, names)
    }
}

/// Appends to two tables what the items of a module export and re-export, up to an item for which there is no room.
// `Ready` is asked here alone. The tables are parameters: the check loses what a list writes into a field of
// `FindingsTables`, whether a literal, a function or a pattern borrows that field.
pub(crate) fn list_items(
    program: ProgramRef,
    exports: &mut OrderedTable<Place>,
    reexports: &mut OrderedTable<Place>,
) -> Result<(), FindingsFault>
    requires exports { Ready exports.old }
    requires reexports { Ready reexports.old }
    ensures { ItemsListed (tree_module (program_tree program.entry)) (children (tree_rows (program_tree program.entry)) 0) exports.old reexports.old result exports.new reexports.new }
{
    let module = program.tree().module();
    let mut names = PlaceList { table: exports };
    let mut stars = PlaceList { table: reexports };
    for item in program.root().children() {
        let row = item.row();
        // The refusal as in the other analysis: a shared function would be longer.
        list_item(item, &mut names, &mut stars).map_err(|_| FindingsFault::Full { module, row })?;
    }
    Ok(())
}
