//! What the cases are read from: numbers, and bytes after their length.
use text::read_le32;

/// The bytes that are not read yet.
#[derive(Drop)]
pub(crate) struct Input<'a> {
    pub(crate) rest: &'a [u8],
}

impl<'a> Input<'a> {
    /// The next number.
    pub(crate) fn number(&mut self) -> Option<u32> {
        Some(read_le32(self.take(4)?, 0))
    }

    /// The next bytes, which stand after their length.
    pub(crate) fn bytes(&mut self) -> Option<&'a [u8]> {
        let length = self.number()?;
        self.take(length as usize)
    }

    /// So many bytes.
    fn take(&mut self, count: usize) -> Option<&'a [u8]> {
        let (taken, rest) = self.rest.split_at_checked(count)?;
        self.rest = rest;
        Some(taken)
    }
}
