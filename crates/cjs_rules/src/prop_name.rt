//! The name of a property.
use text::Place;

/// A stretch of a tree's text: its place, and its bytes.
#[derive(Clone, Copy)]
pub struct Part<'a> {
    pub place: Place,
    pub bytes: &'a [u8],
}

/// An identifier, or a string that has a plain reading.
// The cases hold their parts of the text by a rule of the project (docs/DECISIONS.md), and `get_prop_name` promises
// which it is.
#[derive(Clone, Copy)]
pub enum PropName<'a> {
    Ident(Part<'a>),
    Str(Part<'a>),
}
