//! The columns of the table of kinds by a kind's number, which a row has. A number that no kind has is answered as
//! well: as that of a kind with no text, of mark 0, and with any children.
ghost use Rattle.std.specs.Prelude.{◌≡◌, nat_lt};
ghost use Rattle.kinds.specs.Shape.{fewest, first_child, highest_mark, last_child, later_child, most, text_of};
ghost use Rattle.kinds.specs.Table.{ColumnsAreTheTable};

// Beside the methods of `Kind`: callers that have a row's number are promised these, for every number.
use crate::kind::Kind;
use crate::shape::{Encoding, Group};

/// Whether a number is that of a kind. The table of the kinds has a line for each.
#[tactic(auto, using(crate::proofs::Tried::columns_are_the_table))]
pub fn is_kind(number: u32) -> bool
    ensures known { result ≡ nat_lt number 50 }
    ensures table { ColumnsAreTheTable }
{
    Kind::try_from(number).is_ok()
}

/// The encoding of the text that a row of this kind has, or none where it has no text.
pub fn text_of(number: u32) -> Option<Encoding>
    ensures { result ≡ text_of number }
{
    Kind::try_from(number).ok().and_then(Kind::text)
}

/// The highest mark of a kind.
pub fn highest_mark(number: u32) -> u32
    ensures { result ≡ highest_mark number }
{
    Kind::try_from(number).map_or(0, Kind::highest_mark)
}

/// The fewest children of a kind.
pub fn fewest_children(number: u32) -> usize
    ensures { result ≡ fewest number }
{
    Kind::try_from(number).map_or(0, Kind::fewest_children)
}

/// The most children of a kind, or none where there is no limit.
pub fn most_children(number: u32) -> Option<usize>
    ensures { result ≡ most number }
{
    Kind::try_from(number).ok().and_then(Kind::most_children)
}

/// The group of the first child.
pub fn first_child_group(number: u32, mark: u32) -> Group
    ensures { result ≡ first_child number mark }
{
    Kind::try_from(number).map_or(Group::Any, |kind| kind.first_child_group(mark))
}

/// The group of each child after the first.
pub fn later_child_group(number: u32, mark: u32) -> Group
    ensures { result ≡ later_child number mark }
{
    Kind::try_from(number).map_or(Group::Any, |kind| kind.later_child_group(mark))
}

/// The group of the last child, where it differs from that of its place.
pub fn last_child_group(number: u32) -> Option<Group>
    ensures { result ≡ last_child number }
{
    Kind::try_from(number).ok().and_then(Kind::last_child_group)
}
