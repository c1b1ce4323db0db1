//! The memory of findings tables, for programs.
ghost use Rattle.std.specs.Prelude.{◌≡◌, IfOk};
ghost use Rattle.answers.specs.Memory.{at_most, memory_room, size_room};
ghost use Rattle.findings.specs.Tables.{room_of};

use findings::FindingsTables;
use std::alloc::{AllocError, Global};
use table::{Binding, OrderedTable};
use text::Place;

/// How many rows each of an analysis's tables has.
#[derive(Clone, Copy, PartialEq, Eq, Debug)]
pub struct Sizes {
    pub bindings: usize,
    pub exports: usize,
    pub reexports: usize,
    pub unsafes: usize,
}

impl Sizes {
    /// Tables in which each analysis of any block finds room: no block has more rows than this.
    pub const LARGEST: Sizes = Sizes {
        bindings: 65_536,
        exports: 65_536,
        reexports: 65_536,
        unsafes: 65_536,
    };

    /// The same, but that no table has more rows than these.
    pub(crate) fn at_most(self, rows: usize) -> Self
        ensures { size_room result ≡ at_most rows (size_room self) }
    {
        Sizes {
            bindings: self.bindings.min(rows),
            exports: self.exports.min(rows),
            reexports: self.reexports.min(rows),
            unsafes: self.unsafes.min(rows),
        }
    }
}

/// The rows of an analysis's tables.
#[derive(Drop)]
pub(crate) struct TableMemory {
    bindings: Vec<Binding>,
    exports: Vec<Place>,
    reexports: Vec<Place>,
    unsafes: Vec<Place>,
}

impl TableMemory {
    /// Rows of these sizes.
    pub(crate) fn new(heap: Global, sizes: Sizes) -> Result<Self, AllocError>
        ensures { IfOk result (λ memory. memory_room memory ≡ size_room sizes) }
    {
        Ok(TableMemory {
            bindings: vec![in heap; Binding::default(); sizes.bindings]?,
            exports: vec![in heap; Place::default(); sizes.exports]?,
            reexports: vec![in heap; Place::default(); sizes.reexports]?,
            unsafes: vec![in heap; Place::default(); sizes.unsafes]?,
        })
    }

    /// The tables that stand in the rows.
    pub(crate) fn tables(&mut self) -> FindingsTables<'_>
        ensures { room_of result ≡ memory_room self.old }
    {
        FindingsTables {
            bindings: OrderedTable {
                rows: self.bindings.as_mut_slice(),
                len: 0,
            },
            exports: OrderedTable {
                rows: self.exports.as_mut_slice(),
                len: 0,
            },
            reexports: OrderedTable {
                rows: self.reexports.as_mut_slice(),
                len: 0,
            },
            unsafes: OrderedTable {
                rows: self.unsafes.as_mut_slice(),
                len: 0,
            },
        }
    }
}
