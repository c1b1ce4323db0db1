//! Which texts are paths, and which specifiers are joined to paths.
ghost use Rattle.std.specs.Prelude.{◌≡◌};
ghost use Rattle.paths.specs.Join.{is_relative};
ghost use Rattle.paths.specs.Segments.{is_name, is_path};

use crate::names::{is_dot, is_dots};

/// Whether a segment is a name.
fn is_name(segment: &[u8]) -> bool
    ensures { result ≡ is_name segment.now }
{
    !segment.is_empty() && !is_dot(segment) && !is_dots(segment)
}

/// Whether a text is a path: each of its segments is a name.
pub fn is_path(text: &[u8]) -> bool
    ensures { result ≡ is_path text.now }
{
    text.split(|byte| *byte == b'/').all(is_name)
}

/// Whether a specifier begins with `./` or `../`.
pub(crate) fn is_relative(specifier: &[u8]) -> bool
    ensures { result ≡ is_relative specifier.now }
{
    specifier.starts_with(b"./") || specifier.starts_with(b"../")
}
