//! A row of a tree block, and the rows that it holds.
ghost use Rattle.std.specs.Prelude.{◌≤◌, length};

/// The five numbers of a row, as the block's format has them: its kind, its mark, the place of its text in the text
/// section, and the number of the row at which it ends.
#[derive(Clone, Copy, PartialEq, Eq, Debug, Default)]
pub struct Row {
    pub kind: u32,
    pub mark: u32,
    pub offset: u32,
    pub length: u32,
    pub end: u32,
}

/// How many bytes a row takes.
pub(crate) const ROW_BYTES: usize = 20;

/// The rows of a block, each in its bytes.
#[derive(Clone, Copy)]
pub(crate) struct Rows<'a> {
    pub(crate) bytes: &'a [[u8; ROW_BYTES]],
    ghost few: { length bytes.now ≤ 65536 },
}
