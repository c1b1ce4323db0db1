//! The header of a block: the places of its rows and of its text.
ghost use Rattle.std.specs.Prelude.{MatchOption};
ghost use Rattle.tree.specs.Block.{LawfulLayout, SectionsOf};

use crate::row::{ROW_BYTES, Rows};

/// How many bytes the header takes.
const HEADER: usize = 16;

/// Longer blocks are refused whatever they hold.
pub const LONGEST_BLOCK: usize = 4_194_304;

/// Blocks of more rows are refused.
const MOST_ROWS: usize = 65_536;

/// The sections of a block.
#[derive(Clone, Copy)]
pub(crate) struct Sections<'a> {
    pub(crate) rows: Rows<'a>,
    pub(crate) text: &'a [u8],
}

/// The sections of a block, one after the other in it, or None where it is too short or too long, or they do not lie
/// so.
pub(crate) fn sections_of(block: &[u8]) -> Option<Sections<'_>>
    ensures { MatchOption result (LawfulLayout block.now → ⊥) (SectionsOf block.now) }
{
    if block.len() > LONGEST_BLOCK {
        return None;
    }
    let ([rows_at, rows_length, text_at, text_length, ..], _) = block.as_chunks::<4>() else {
        return None;
    };
    // Two pairs of two lines: a function for one pair would want a clause as long.
    let rows_offset = u32::from_le_bytes(*rows_at) as usize;
    let rows_end = rows_offset + u32::from_le_bytes(*rows_length) as usize;
    let text_offset = u32::from_le_bytes(*text_at) as usize;
    let text_end = text_offset + u32::from_le_bytes(*text_length) as usize;
    if rows_offset < HEADER || rows_end > text_offset {
        return None;
    }
    let text = block.get(text_offset..text_end)?;
    let (bytes, rest) = block.get(rows_offset..rows_end)?.as_chunks::<ROW_BYTES>();
    if bytes.is_empty() || bytes.len() > MOST_ROWS || !rest.is_empty() {
        return None;
    }
    Some(Sections {
        rows: Rows { bytes },
        text,
    })
}
