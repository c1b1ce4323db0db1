//! Places at the end of a table, in the order in which they come.
ghost use Rattle.table.specs.Kinds.{no_place};
ghost use Rattle.table.specs.Table.{Rest};

use table::{Full, OrderedTable};
use text::Place;

/// A table that places are appended to. The rows past its count are zero.
// The order of its keys is not used. A list type would have to be made of a table of `FindingsTables`, a public type
// that both analyses fill, and be given back as that table.
#[derive(Drop)]
pub(crate) struct PlaceList<'a, 't> {
    pub(crate) table: &'a mut OrderedTable<'t, Place>,
    ghost ready: { Rest no_place table.now.len table.now.rows.now },
}

impl PlaceList<'_, '_> {
    ghost use Rattle.std.specs.Prelude.{[], ◌∷◌};
    ghost use Rattle.exports.specs.Append.{Lists, optional};

    /// Appends a place, where there is room.
    pub(crate) fn append(&mut self, place: Place) -> Result<(), Full>
        ensures { Lists (place ∷ []) self.old result self.new }
    {
        self.table.push(place)
    }

    /// Appends the place, if there is one.
    pub(crate) fn append_if_any(&mut self, place: Option<Place>) -> Result<(), Full>
        ensures { Lists (optional place) self.old result self.new }
    {
        if let Some(place) = place {
            self.append(place)?;
        }
        Ok(())
    }
}
