//! The names that the segments of a specifier and the folder of a path come to.
ghost use Rattle.std.specs.Prelude.{◌≡◌, ◌==◌, ◌&&◌};
ghost use Rattle.paths.specs.Backwards.{names_to_come, stays, to_come};
ghost use Rattle.paths.specs.Segments.{is_dot, is_dots};

use crate::segments::Segments;

/// The names that are not taken off again, the last one first: those of a specifier, and then those of a folder.
#[derive(Clone, Copy)]
pub(crate) struct Names<'a> {
    pub(crate) specifier: Segments<'a>,
    pub(crate) folder: Segments<'a>,
}

/// Whether a segment is `.`.
pub(crate) fn is_dot(segment: &[u8]) -> bool
    ensures { result ≡ is_dot segment.now }
{
    segment == b".".as_slice()
}

/// Whether a segment is `..`.
pub(crate) fn is_dots(segment: &[u8]) -> bool
    ensures { result ≡ is_dots segment.now }
{
    segment == b"..".as_slice()
}

/// The name before those that came.
impl<'a> Iterator for Names<'a> {
    ghost use Rattle.std.specs.Iterator.{YieldsFirstRef, item_count};
    ghost use Rattle.paths.specs.Backwards.{names_to_come};

    type Item = &'a [u8];

    ghost next_gives = { YieldsFirstRef names_to_come };

    ghost remaining = { item_count names_to_come };

    fn next(&mut self) -> Option<&'a [u8]> {
        // So many names are still to be taken off.
        let mut up: usize = 0;
        while let Some(segment) = self.specifier.next() {
            if is_dot(segment) {
                continue;
            }
            if is_dots(segment) {
                up += 1;
            } else if up == 0 {
                return Some(segment);
            } else {
                up -= 1;
            }
        }
        while up > 0 {
            up -= 1;
            self.folder.next()?;
        }
        self.folder.next()
    }
}

impl Names<'_> {
    /// Whether no segment is empty, and there is a name for each `..` to take off.
    pub(crate) fn stay(self) -> bool
        ensures { result ≡ stays (to_come self.entry.folder) 0 (to_come self.entry.specifier) }
    {
        let mut up: usize = 0;
        for segment in self.specifier {
            if segment.is_empty() {
                return false;
            }
            if is_dot(segment) {
                continue;
            }
            if is_dots(segment) {
                up += 1;
            } else {
                up = up.saturating_sub(1);
            }
        }
        up <= self.folder.count()
    }
}
