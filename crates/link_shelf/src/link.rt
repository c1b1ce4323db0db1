//! A link of a shelf.
ghost use Rattle.std.specs.Prelude.{◌≡◌, ◌+◌, ◌<◌, ◌^◌};
ghost use Rattle.link_shelf.specs.Links.{link_at, specifier_of};
ghost use Rattle.link_shelf.specs.Means.{is_of};

use shelf::read_place;
use text::{Place, read_le32};

/// A link: the specifier of a module leads to a target.
#[derive(Clone, Copy)]
pub(crate) struct Link {
    pub(crate) module: u32,
    pub(crate) specifier: Place,
    pub(crate) target: u32,
}

impl Link {
    /// The link whose sixteen bytes begin at `at`.
    pub(crate) fn read(bytes: &[u8], at: usize) -> Self
        requires { at + 12 < 2 ^ 64 }
        ensures { result ≡ link_at bytes.now at }
    {
        Link {
            module: read_le32(bytes, at),
            specifier: read_place(bytes, at + 4),
            target: read_le32(bytes, at + 12),
        }
    }

    /// Whether it is the link of a module's specifier.
    pub(crate) fn is_of(self, bytes: &[u8], module: u32, specifier: &[u8]) -> bool
        ensures { result ≡ is_of bytes.now «module» specifier.now self }
    {
        self.module == module && self.specifier.part(bytes) == specifier
    }
}
