//! The texts at places, in hexadecimal.
ghost use Rattle.std.specs.Prelude.{◌≡◌, Some};
ghost use Rattle.std.specs.Fmt.{WritesOnOk};
ghost use Rattle.text.specs.Reading.{loose};
ghost use Rattle.lines.specs.Texts.{hex_bytes, loose_text, reading_at};

use crate::listed::{Listed, Manner};
use std::fmt;
use text::{LooseBytes, Place};

/// Writes the bytes of the loose reading of a text, each by its two hexadecimal digits.
#[tactic(auto, using(crate::proofs::Digits::byte_written))]
fn write_hex<W: fmt::Write>(text: &[u8], f: &mut fmt::Formatter<W>) -> fmt::Result
    ensures { WritesOnOk W.write_str_gives f.old result (hex_bytes (loose text.now)) f.new }
{
    for byte in LooseBytes::new(text) {
        write!(f, "{byte:02x}")?;
    }
    Ok(())
}

/// The bytes at a place, or those of the name `default` at its place.
pub fn bytes_at<'a>(text: &'a [u8], place: &Place) -> &'a [u8]
    ensures { loose result.now ≡ reading_at text.now place.now }
{
    if *place == Place::TEXTLESS {
        b"default"
    } else {
        place.part(text)
    }
}

/// Rows by their texts.
#[derive(Clone, Copy)]
pub struct ByTexts<'a> {
    pub text: &'a [u8],
}

/// A place: a dot, and the digits of the text there.
impl Manner<Place> for ByTexts<'_> {
    ghost text = { λ x place. loose_text x.text.now place };

    fn write_row<W: fmt::Write>(&self, row: &Place, f: &mut fmt::Formatter<W>) -> fmt::Result {
        f.write_str(".")?;
        write_hex(bytes_at(self.text, row), f)
    }
}

/// The texts at places: for each `.` and the loose reading, two digits a byte, with commas between; `-` where there is
/// none. At offset 0 and length 4294967295 stands `default`, whatever the text.
pub type LooseTexts<'a> = Listed<'a, Place, ByTexts<'a>>;
