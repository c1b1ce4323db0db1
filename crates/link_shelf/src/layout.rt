//! The parts of a link shelf, in its bytes.
ghost use Rattle.std.specs.Prelude.{◌≡◌};
ghost use Rattle.link_shelf.specs.Links.{link, link_count, links_start, module_count};
ghost use Rattle.link_shelf.specs.Means.{leads};

use crate::link::Link;
use shelf::Pairs;
use text::read_le32;

/// Where the pairs of the blocks begin: after the two counts.
const BLOCKS_START: usize = 8;

/// How many bytes a pair takes.
const PAIR_BYTES: usize = 8;

/// How many bytes a link takes.
pub(crate) const LINK_BYTES: usize = 16;

/// How many modules the bytes count.
pub(crate) fn module_count(bytes: &[u8]) -> u32
    ensures { result ≡ module_count bytes.now }
{
    read_le32(bytes, 0)
}

/// How many links they count.
pub(crate) fn link_count(bytes: &[u8]) -> u32
    ensures { result ≡ link_count bytes.now }
{
    read_le32(bytes, 4)
}

/// The pairs of the blocks.
pub(crate) fn blocks(bytes: &[u8]) -> Pairs<'_>
    ensures bytes { result.bytes.now ≡ bytes.now }
    ensures start { result.start ≡ 8 }
    ensures count { result.count ≡ module_count bytes.now }
{
    Pairs {
        bytes,
        start: BLOCKS_START,
        count: module_count(bytes),
    }
}

/// Where the links begin.
pub(crate) fn links_start(bytes: &[u8]) -> usize
    ensures { result ≡ links_start bytes.now }
{
    BLOCKS_START + PAIR_BYTES * module_count(bytes) as usize
}

/// A link, by its number.
pub(crate) fn link(bytes: &[u8], number: u32) -> Link
    ensures { result ≡ link bytes.now number }
{
    Link::read(bytes, links_start(bytes) + LINK_BYTES * number as usize)
}

/// Where the first link of a module's specifier leads.
#[tactic(auto, unfolding(crate::specs::Links::links))]
pub(crate) fn lookup(bytes: &[u8], module: u32, specifier: &[u8]) -> Option<u32>
    ensures { result ≡ leads bytes.now «module» specifier.now }
{
    (0..link_count(bytes))
        .map(|number| link(bytes, number))
        .find(|link| link.is_of(bytes, module, specifier))
        .map(|link| link.target)
}
