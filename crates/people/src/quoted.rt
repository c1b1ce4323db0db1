//! Names for people: in quotes, each on a line of its own.
ghost use Rattle.std.specs.Prelude.{◌≡◌, [], ◌∷◌, Some};
ghost use Rattle.std.specs.Fmt.{WritesOnOk};
ghost use Rattle.text.specs.Reading.{loose};
ghost use Rattle.people.specs.Quoted.{counted_names, inside_quotes, is_plain, name_line, quoted_byte};
ghost use Rattle.lines.specs.Texts.{hex_bytes};

use lines::bytes_at;
use std::fmt;
use text::{LooseBytes, Place};

/// Whether a byte stands in quotes as it is: a printed character of ASCII that is neither the quote nor a backslash.
fn is_plain(byte: u8) -> bool
    ensures { result ≡ is_plain byte }
{
    matches!(byte, 32..=126) && byte != b'"' && byte != b'\\'
}

/// Writes the two hexadecimal digits of a byte.
#[tactic(auto, using(crate::proofs::Quoting::digits_written))]
fn write_digits<W: fmt::Write>(byte: u8, f: &mut fmt::Formatter<W>) -> fmt::Result
    ensures { WritesOnOk W.write_str_gives f.old result (hex_bytes (byte ∷ [])) f.new }
{
    write!(f, "{byte:02x}")
}

/// Writes a byte as it is, or by its digits after `\x`.
#[tactic(auto, using(crate::proofs::Quoting::plain_written))]
fn write_byte<W: fmt::Write>(byte: u8, f: &mut fmt::Formatter<W>) -> fmt::Result
    ensures { WritesOnOk W.write_str_gives f.old result (quoted_byte byte) f.new }
{
    if is_plain(byte) {
        write!(f, "{}", byte as char)
    } else {
        f.write_str("\\x")?;
        write_digits(byte, f)
    }
}

/// Writes the bytes of the loose reading of a text.
#[tactic(auto, using(crate::proofs::Quoting::byte_written))]
fn write_bytes<W: fmt::Write>(text: &[u8], f: &mut fmt::Formatter<W>) -> fmt::Result
    ensures { WritesOnOk W.write_str_gives f.old result (inside_quotes (loose text.now)) f.new }
{
    for byte in LooseBytes::new(text) {
        write_byte(byte, f)?;
    }
    Ok(())
}

/// Writes a name on a line of its own, between quotes.
fn write_name<W: fmt::Write>(text: &[u8], name: &Place, f: &mut fmt::Formatter<W>) -> fmt::Result
    ensures { WritesOnOk W.write_str_gives f.old result (name_line text.now name.now) f.new }
{
    f.write_str("\n    \"")?;
    write_bytes(bytes_at(text, name), f)?;
    f.write_str("\"")
}

/// Names as places of a text: how many they are, and then each in quotes on a line of its own.
#[derive(Clone, Copy)]
pub struct CountedNames<'t, 'a> {
    pub text: &'t [u8],
    pub rows: &'a [Place],
}

/// The count and the names.
impl fmt::Display for CountedNames<'_, '_> {
    ghost output = { λ x. Some (counted_names x.text.now x.rows.now) };

    fn fmt<W: fmt::Write>(&self, f: &mut fmt::Formatter<W>) -> fmt::Result {
        let rows = self.rows;
        write!(f, "{}", rows.len())?;
        for row in rows {
            write_name(self.text, row, f)?;
        }
        Ok(())
    }
}
