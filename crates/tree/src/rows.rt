//! The rows of a block, read from its bytes.
ghost use Rattle.std.specs.Prelude.{◌≡◌, length};
ghost use Rattle.kinds.specs.Number.{Decodes};
ghost use Rattle.tree.specs.Block.{row_in, rows_of};
ghost use Rattle.tree.specs.Children.{place_of};
ghost use Rattle.tree.specs.Forest.{end_at, row_at};

use crate::row::{ROW_BYTES, Row, Rows};
use kinds::kind::{Kind, UnknownKind};
use text::Place;

/// The row in its bytes: five numbers, one after the other.
impl From<&[u8; ROW_BYTES]> for Row {
    ghost from_gives = { λ bytes row. row ≡ row_in bytes.now 0 };

    fn from(bytes: &[u8; ROW_BYTES]) -> Self {
        let ([kind, mark, offset, length, end], _) = bytes.as_chunks::<4>() else {
            // Proved: twenty bytes are five times four.
            unreachable!()
        };
        Row {
            kind: u32::from_le_bytes(*kind),
            mark: u32::from_le_bytes(*mark),
            offset: u32::from_le_bytes(*offset),
            length: u32::from_le_bytes(*length),
            end: u32::from_le_bytes(*end),
        }
    }
}

impl Row {
    /// The kind of the row, or the number that no kind has.
    pub(crate) fn kind(self) -> Result<Kind, UnknownKind>
        ensures { Decodes self.kind result }
    {
        Kind::try_from(self.kind)
    }

    /// The place of the row's text.
    pub(crate) fn place(self) -> Place
        ensures { result ≡ place_of self }
    {
        Place {
            offset: self.offset,
            length: self.length,
        }
    }
}

impl Rows<'_> {
    /// How many rows there are.
    #[tactic(auto, unfolding(crate::specs::Block::rows_from))]
    pub(crate) fn count(&self) -> usize
        ensures { result ≡ length (rows_of self.now) }
    {
        self.bytes.len()
    }

    /// Row j; a row of zeros past the rows.
    #[tactic(auto, using(crate::proofs::Sections::row_read))]
    pub(crate) fn row(&self, j: usize) -> Row
        ensures { result ≡ row_at (rows_of self.now) j }
    {
        // No `Option`: `Tree::row` promises its callers the row of zeros past the rows.
        self.bytes.get(j).map_or(Row::default(), Row::from)
    }

    /// Where row j ends; 0 past the rows.
    pub(crate) fn end(&self, j: usize) -> usize
        ensures { result ≡ end_at (rows_of self.now) j }
    {
        // No `Option`: its callers compare ends, and with 0 past the rows each comparison fails.
        self.row(j).end as usize
    }
}
