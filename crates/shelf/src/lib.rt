//! What the kinds of shelf share: pairs of an offset and a length, and the rule for the blocks of modules.
#![tactic(auto)]

ghost use Rattle.std.specs.Prelude.{◌≡◌, ◌≤◌, ◌<◌, ◌^◌, length, Decides};
ghost use Rattle.text.specs.Place.{stretch};
ghost use Rattle.shelf.specs.Pairs.{EachBeforeNext, EachInside, LawfulBlocks, NoBlocksOverlap, end_of, pair, place_at};

use text::{Place, read_le32};

/// The place that a pair of numbers names.
pub fn read_place(bytes: &[u8], at: usize) -> Place
    ensures { result ≡ place_at bytes.now at }
{
    Place {
        offset: read_le32(bytes, at),
        length: read_le32(bytes, at.saturating_add(4)),
    }
}

/// Whether a place ends within the bytes. A place may end past 32 bits.
pub fn is_inside(place: Place, bytes: &[u8]) -> bool
    ensures { Decides result (end_of place ≤ length bytes.now) }
{
    end(place) <= bytes.len()
}

/// Where a place ends.
fn end(place: Place) -> usize
    ensures { result ≡ end_of place }
{
    place.offset as usize + place.length as usize
}

/// So many pairs of a shelf, from an offset on.
#[derive(Clone, Copy)]
pub struct Pairs<'a> {
    pub bytes: &'a [u8],
    pub start: usize,
    pub count: u32,
    ghost near: { start < 2 ^ 36 },
}

impl<'a> Pairs<'a> {
    /// The place that a pair names, also past the count.
    pub fn place(self, number: u32) -> Place
        ensures { result ≡ pair self.entry.bytes.now self.entry.start number }
    {
        read_place(self.bytes, self.start + 8 * number as usize)
    }

    /// The bytes at that place.
    pub fn part(self, number: u32) -> &'a [u8]
        ensures { let place = pair self.entry.bytes.now self.entry.start number in result.now ≡ stretch self.entry.bytes.now place.offset place.length }
    {
        self.place(number).part(self.bytes)
    }

    /// Whether each pair names a place within the bytes.
    pub fn are_inside(self) -> bool
        ensures { Decides result (EachInside self.entry.bytes.now self.entry.start self.entry.count) }
    {
        for number in 0..self.count {
            if !is_inside(self.place(number), self.bytes) {
                return false;
            }
        }
        true
    }

    /// Whether each pair ends where the next begins, or before.
    fn are_in_order(self) -> bool
        ensures { Decides result (EachBeforeNext self.entry.bytes.now self.entry.start self.entry.count) }
    {
        for next in 1..self.count {
            if end(self.place(next - 1)) > self.place(next).offset as usize {
                return false;
            }
        }
        true
    }

    /// Whether the pairs are those of lawful blocks.
    pub fn are_blocks(self) -> bool
        ensures lawful { Decides result (LawfulBlocks self.entry.bytes.now self.entry.start self.entry.count) }
        ensures apart { NoBlocksOverlap }
    {
        self.are_inside() && self.are_in_order()
    }
}
