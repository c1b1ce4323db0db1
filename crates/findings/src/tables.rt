//! The four tables that the analyses fill, in memory that the caller lends.
ghost use Rattle.findings.specs.Tables.{Leaves, nothing};

use table::{Binding, OrderedTable};
use text::Place;

/// Tables of bindings, exports, re-exports and unsafe texts. They may hold anything before an analysis.
// `lines::Lists` has the same four fields, of lent lists. One struct for both would have to stand in the crate that
// prints it, and the tables would then come from there.
#[derive(Drop)]
pub struct FindingsTables<'t> {
    pub bindings: OrderedTable<'t, Binding>,
    pub exports: OrderedTable<'t, Place>,
    pub reexports: OrderedTable<'t, Place>,
    pub unsafes: OrderedTable<'t, Place>,
}

impl FindingsTables<'_> {
    /// Empties the four tables, whatever they held.
    pub fn clear(&mut self)
        ensures { Leaves self.old nothing self.new }
    {
        self.bindings.clear();
        self.exports.clear();
        self.reexports.clear();
        self.unsafes.clear();
    }
}
