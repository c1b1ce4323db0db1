//! The parts of a path shelf, in its bytes.
ghost use Rattle.std.specs.Prelude.{◌≡◌};
ghost use Rattle.path_shelf.specs.Paths.{module_count, path_of, paths_start};

use shelf::Pairs;
use text::read_le32;

/// Where the pairs of the blocks begin: after the count.
const BLOCKS_START: usize = 4;

/// How many bytes a pair takes.
pub(crate) const PAIR_BYTES: usize = 8;

/// How many modules the bytes count.
pub(crate) fn module_count(bytes: &[u8]) -> u32
    ensures { result ≡ module_count bytes.now }
{
    read_le32(bytes, 0)
}

/// The pairs of the blocks.
pub(crate) fn blocks(bytes: &[u8]) -> Pairs<'_>
    ensures bytes { result.bytes.now ≡ bytes.now }
    ensures start { result.start ≡ 4 }
    ensures count { result.count ≡ module_count bytes.now }
{
    Pairs {
        bytes,
        start: BLOCKS_START,
        count: module_count(bytes),
    }
}

/// The pairs of the paths.
pub(crate) fn paths(bytes: &[u8]) -> Pairs<'_>
    ensures bytes { result.bytes.now ≡ bytes.now }
    ensures start { result.start ≡ paths_start bytes.now }
    ensures count { result.count ≡ module_count bytes.now }
{
    let count = module_count(bytes);
    Pairs {
        bytes,
        start: BLOCKS_START + PAIR_BYTES * count as usize,
        count,
    }
}

/// The path of a module.
pub(crate) fn path(bytes: &[u8], module: u32) -> &[u8]
    ensures { result.now ≡ path_of bytes.now «module» }
{
    paths(bytes).part(module)
}
