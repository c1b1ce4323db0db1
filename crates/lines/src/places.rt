//! Places and bindings by their numbers.
ghost use Rattle.std.specs.Prelude.{◌≡◌, Some};
ghost use Rattle.lines.specs.Places.{binding_text, lists_text, place_text};

use crate::listed::{Listed, Manner};
use std::fmt;
use table::Binding;
use text::Place;

/// Rows by their numbers: `OFFSET:LENGTH` for a place, `PLACE=PLACE` for a binding.
#[derive(Clone, Copy)]
pub struct ByNumbers;

/// A place: its offset and its length.
impl Manner<Place> for ByNumbers {
    ghost text = { λ _ place. place_text place };

    fn write_row<W: fmt::Write>(&self, row: &Place, f: &mut fmt::Formatter<W>) -> fmt::Result {
        write!(f, "{}:{}", row.offset, row.length)
    }
}

/// A binding: the place of the name, and that of the value.
impl Manner<Binding> for ByNumbers {
    ghost text = { λ _ binding. binding_text binding };

    fn write_row<W: fmt::Write>(&self, row: &Binding, f: &mut fmt::Formatter<W>) -> fmt::Result {
        self.write_row(&row.name, f)?;
        f.write_str("=")?;
        self.write_row(&row.value, f)
    }
}

/// The list of rows by their numbers.
impl<'a, R> From<&'a [R]> for Listed<'a, R, ByNumbers> {
    ghost from_gives = { λ rows listed. listed.rows.now ≡ rows.now };

    fn from(rows: &'a [R]) -> Self {
        Listed {
            manner: ByNumbers,
            rows,
        }
    }
}

/// A list of places: `OFFSET:LENGTH` for each, with commas between; `-` where there is none.
pub type Places<'a> = Listed<'a, Place, ByNumbers>;

/// A list of bindings: the places of the name and of the value, with `=` between, for each; else as a list of places.
pub type Bindings<'a> = Listed<'a, Binding, ByNumbers>;

/// The lists of one module, each after its letter: `b ROWS e ROWS r ROWS u ROWS`.
// Beside `FindingsTables` of `findings`: one struct for both would have to stand here, where it is printed, and the
// tables would then come from here.
#[derive(Clone, Copy)]
pub struct Lists<'a> {
    pub bindings: &'a [Binding],
    pub exports: &'a [Place],
    pub reexports: &'a [Place],
    pub unsafes: &'a [Place],
}

/// The four lists.
impl fmt::Display for Lists<'_> {
    ghost output = { λ x. Some (lists_text x.bindings.now x.exports.now x.reexports.now x.unsafes.now) };

    fn fmt<W: fmt::Write>(&self, f: &mut fmt::Formatter<W>) -> fmt::Result {
        let bindings = Bindings::from(self.bindings);
        let exports = Places::from(self.exports);
        let reexports = Places::from(self.reexports);
        let unsafes = Places::from(self.unsafes);
        write!(f, "b {bindings} e {exports} r {reexports} u {unsafes}")
    }
}
