//! Where a specifier of a module leads.
ghost use Rattle.std.specs.Prelude.{◌≡◌, ◌++◌};
ghost use Rattle.paths.specs.Joined.{joined_text};
ghost use Rattle.path_shelf.specs.Means.{first_with, found, leads};

use crate::layout::{module_count, path};
use paths::Joined;

/// The lowest module whose path is a joined path with an ending.
fn first_with(bytes: &[u8], joined: Joined, ending: &[u8]) -> Option<u32>
    ensures { result ≡ first_with bytes.now (joined_text joined.entry ++ ending.now) }
{
    (0..module_count(bytes)).find(|module| joined.is_with(ending, path(bytes, *module)))
}

/// The module that a joined path leads to: one with this path, else one with `.js` after it, else one with `/index.js`.
fn found(bytes: &[u8], joined: Joined) -> Option<u32>
    ensures { result ≡ found bytes.now (joined_text joined.entry) }
{
    // With `or_else` nothing would be known of what its closure gives.
    if let Some(module) = first_with(bytes, joined, b"") {
        return Some(module);
    }
    if let Some(module) = first_with(bytes, joined, b".js") {
        return Some(module);
    }
    first_with(bytes, joined, b"/index.js")
}

/// Where a specifier of a module leads.
pub(crate) fn lookup(bytes: &[u8], module: u32, specifier: &[u8]) -> Option<u32>
    ensures { result ≡ leads bytes.now «module» specifier.now }
{
    found(bytes, Joined::join(path(bytes, module), specifier)?)
}
