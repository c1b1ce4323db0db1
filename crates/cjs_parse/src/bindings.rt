//! The bindings that the walk has made so far.
ghost use Rattle.table.specs.Kinds.{bindings};
ghost use Rattle.table.specs.Table.{InOrder};

use table::{Binding, search_by};
use text::Place;
use tree::Node;

/// Bindings in the order of their names, which lie in a text.
#[derive(Clone, Copy)]
pub(crate) struct Bindings<'b> {
    pub(crate) rows: &'b [Binding],
    pub(crate) text: &'b [u8],
    ghost ordered: { InOrder bindings.order (bindings.key text.now) rows.now },
}

impl Bindings<'_> {
    ghost use Rattle.std.specs.Prelude.{◌≡◌};
    ghost use Rattle.cjs_parse.specs.Bound.{bound_in};
    ghost use Rattle.cjs_rules.specs.Nodes.{here, section, text_of};

    /// The specifier that a name is bound to.
    pub(crate) fn bound(self, name: Node) -> Option<Place>
        ensures { result ≡ bound_in self.entry (text_of (section name.entry) (here name.entry)) }
    {
        // The order of bindings stands here beside their `Row`: `OrderedTable::find` compares rows, and a row made up
        // for the search would have a value that nobody gave.
        let sought = name.text();
        let found = search_by(self.rows, |row| row.name.part(self.text).cmp(sought));
        Some(self.rows[found.ok()?].value)
    }
}
