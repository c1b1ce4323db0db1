//! The segments of texts.
ghost use Rattle.std.specs.Prelude.{◌<◌, ◌^◌, length};
ghost use Rattle.paths.specs.Behind.{behind};

use crate::cut::cut_last;

/// The segments of a text, the last one first.
#[derive(Clone, Copy)]
pub(crate) struct Segments<'a> {
    pub(crate) text: Option<&'a [u8]>,
    ghost few: { length (behind text) < 2 ^ 64 },
}

impl<'a> Segments<'a> {
    ghost use Rattle.std.specs.Prelude.{◌≡◌, reverse};
    ghost use Rattle.paths.specs.Backwards.{to_come};
    ghost use Rattle.paths.specs.Segments.{segments};

    /// The segments of a text.
    pub(crate) fn of(text: &'a [u8]) -> Self
        ensures { to_come result ≡ reverse (segments text.now) }
    {
        Segments { text: Some(text) }
    }
}

/// The segment before those that came.
impl<'a> Iterator for Segments<'a> {
    ghost use Rattle.std.specs.Iterator.{YieldsFirstRef, item_count};
    ghost use Rattle.paths.specs.Backwards.{to_come};

    type Item = &'a [u8];

    ghost next_gives = { YieldsFirstRef to_come };

    ghost remaining = { item_count to_come };

    fn next(&mut self) -> Option<&'a [u8]> {
        let (last, rest) = cut_last(self.text?);
        self.text = rest;
        Some(last)
    }
}
