//! The check of a path shelf.
ghost use Rattle.std.specs.Prelude.{Decides};
ghost use Rattle.path_shelf.specs.Lawful.{Lawful, LawfulCount, LawfulPaths};

use crate::layout::{PAIR_BYTES, blocks, module_count, path, paths};
use paths::is_path;

/// The most modules of a shelf.
const MOST_MODULES: u32 = 64;

/// Whether the count is lawful, and there is room for the pairs.
fn count_is_lawful(bytes: &[u8]) -> bool
    ensures { Decides result (LawfulCount bytes.now) }
{
    let modules = module_count(bytes);
    let end = paths(bytes).start + PAIR_BYTES * modules as usize;
    1 <= modules && modules <= MOST_MODULES && end <= bytes.len()
}

/// Whether every module has a path.
fn paths_are_lawful(bytes: &[u8]) -> bool
    ensures { Decides result (LawfulPaths bytes.now) }
{
    for module in 0..module_count(bytes) {
        if !is_path(path(bytes, module)) {
            return false;
        }
    }
    true
}

/// Whether the bytes are a path shelf.
pub(crate) fn is_path_shelf(bytes: &[u8]) -> bool
    ensures { Decides result (Lawful bytes.now) }
{
    count_is_lawful(bytes)
        && blocks(bytes).are_blocks()
        && paths(bytes).are_inside()
        && paths_are_lawful(bytes)
}
