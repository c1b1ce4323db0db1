//! The check of a link shelf.
ghost use Rattle.std.specs.Prelude.{Decides};
ghost use Rattle.link_shelf.specs.Lawful.{Lawful, LawfulCounts, LawfulLink, LawfulLinks};

use crate::layout::{LINK_BYTES, blocks, link, link_count, links_start, module_count};
use crate::link::Link;
use shelf::is_inside;

/// The most modules of a shelf.
const MOST_MODULES: u32 = 64;

/// The most links of a shelf.
const MOST_LINKS: u32 = 4096;

/// Whether the counts are lawful, and there is room for the pairs and the links.
fn counts_are_lawful(bytes: &[u8]) -> bool
    ensures { Decides result (LawfulCounts bytes.now) }
{
    let modules = module_count(bytes);
    let links = link_count(bytes);
    let end = links_start(bytes) + LINK_BYTES * links as usize;
    1 <= modules && modules <= MOST_MODULES && links <= MOST_LINKS && end <= bytes.len()
}

/// Whether a link is lawful.
fn is_lawful(link: Link, bytes: &[u8]) -> bool
    ensures { Decides result (LawfulLink bytes.now link) }
{
    let modules = module_count(bytes);
    link.module < modules && link.target < modules && is_inside(link.specifier, bytes)
}

/// Whether every link is lawful.
fn links_are_lawful(bytes: &[u8]) -> bool
    ensures { Decides result (LawfulLinks bytes.now) }
{
    for number in 0..link_count(bytes) {
        if !is_lawful(link(bytes, number), bytes) {
            return false;
        }
    }
    true
}

/// Whether the bytes are a link shelf.
pub(crate) fn is_link_shelf(bytes: &[u8]) -> bool
    ensures { Decides result (Lawful bytes.now) }
{
    counts_are_lawful(bytes) && blocks(bytes).are_blocks() && links_are_lawful(bytes)
}
