//! The texts of rows: inside their section, and UTF-8 or WTF-8.
ghost use Rattle.std.specs.Prelude.{◌≡◌, length, Decides};
ghost use Rattle.tree.specs.Block.{rows_of};
ghost use Rattle.tree.specs.First.{First};
ghost use Rattle.tree.specs.Forest.{row_at};
ghost use Rattle.tree.specs.Texts.{Inside, LawfulText, text_at};

use crate::row::{Row, Rows};
use kinds::shape::{Encoding, text_of};
use text::{Place, is_utf8, is_wtf8};

impl Row {
    /// Whether the text of the row lies in its section.
    fn is_inside(&self, section: &[u8]) -> bool
        ensures { Decides result (Inside section.now self.now) }
    {
        self.offset as usize + self.length as usize <= section.len()
    }

    /// The text of the row, in a text section.
    pub(crate) fn text_in<'a>(&self, section: &'a [u8]) -> &'a [u8]
        ensures { result.now ≡ text_at section.now self.now }
    {
        self.place().part(section)
    }

    /// Whether the text of the row is lawful.
    fn is_lawful_text(&self, section: &[u8]) -> bool
        ensures { Decides result (LawfulText section.now self.now) }
    {
        match text_of(self.kind) {
            None => self.place() == Place::default(),
            Some(Encoding::Utf8) => self.is_inside(section) && is_utf8(self.text_in(section)),
            Some(Encoding::Wtf8) => self.is_inside(section) && is_wtf8(self.text_in(section)),
        }
    }
}

impl Rows<'_> {
    /// The first row whose text, in a text section, is unlawful.
    pub(crate) fn first_unlawful_text(&self, section: &[u8]) -> Option<usize>
        ensures { First (λ j. LawfulText section.now (row_at (rows_of self.now) j)) (length (rows_of self.now)) result }
    {
        self.bytes
            .iter()
            .position(|bytes| !Row::from(bytes).is_lawful_text(section))
    }
}
