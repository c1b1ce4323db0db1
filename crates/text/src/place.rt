//! Stretches of a text.
ghost use Rattle.std.specs.Prelude.{◌≡◌};
ghost use Rattle.text.specs.Place.{stretch};

/// A stretch of a text, by the offset of its first byte and its length.
#[derive(Clone, Copy, PartialEq, Eq, Debug, Default)]
pub struct Place {
    pub offset: u32,
    pub length: u32,
}

/// The stretch of `length` bytes from `offset` on, clipped at the end of the bytes.
pub fn part(bytes: &[u8], offset: usize, length: usize) -> &[u8]
    ensures { result.now ≡ stretch bytes.now offset length }
{
    let rest = bytes.get(offset..).unwrap_or_default();
    rest.get(..length).unwrap_or(rest)
}

impl Place {
    /// The place of the name `default`, which stands in no text: a number of the findings' format, and so no `Option`.
    pub const TEXTLESS: Place = Place {
        offset: 0,
        length: u32::MAX,
    };

    /// The bytes of a text at this place, clipped at the end of the text.
    pub fn part<'a>(&self, text: &'a [u8]) -> &'a [u8]
        ensures { result.now ≡ stretch text.now self.now.offset self.now.length }
    {
        part(text, self.offset as usize, self.length as usize)
    }
}
