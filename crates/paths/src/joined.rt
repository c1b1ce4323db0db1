//! A specifier joined to a path.
ghost use Rattle.std.specs.Prelude.{◌≡◌, ◌<◌, length, Decides};
ghost use Rattle.paths.specs.Backwards.{names_to_come};

use crate::cut::cut_last;
use crate::names::Names;
use crate::path::is_relative;
use crate::segments::Segments;

/// The path that a specifier comes to from the path of the module that has it. It is read from its end, and takes no
/// memory of its own.
#[derive(Clone, Copy)]
pub struct Joined<'a> {
    names: Names<'a>,
    ghost some: { 0 < length (names_to_come names) },
}

/// Whether two names have the same bytes.
fn is_same(a: &[u8], b: &[u8]) -> bool
    ensures { Decides result (a.now ≡ b.now) }
{
    a == b
}

impl<'a> Joined<'a> {
    ghost use Rattle.std.specs.Prelude.{◌++◌, reverse};
    ghost use Rattle.std.specs.Option.{option_map};
    ghost use Rattle.std.specs.Str.{bytes_eq};
    ghost use Rattle.paths.specs.Join.{join};
    ghost use Rattle.paths.specs.Joined.{joined_names, joined_text};
    ghost use Rattle.paths.specs.JoinedPath.{JoinedIsPath};
    ghost use Rattle.paths.specs.Segments.{segments};

    /// The path that a specifier comes to, or none where it leads nowhere.
    #[tactic(auto, using(crate::proofs::JoinedPaths::joined_is_path))]
    pub fn join(path: &'a [u8], specifier: &'a [u8]) -> Option<Self>
        ensures joined { option_map joined_names result ≡ join path.now specifier.now }
        ensures path { JoinedIsPath }
    {
        if !is_relative(specifier) {
            return None;
        }
        let (_, folder) = cut_last(path);
        let names = Names {
            specifier: Segments::of(specifier),
            folder: Segments { text: folder },
        };
        if !names.stay() {
            return None;
        }
        let mut first = names;
        first.next()?;
        Some(Joined { names })
    }

    /// Whether a text has these names.
    fn is_all_of(self, text: &[u8]) -> bool
        ensures { Decides result (reverse (segments text.now) ≡ joined_names self.entry) }
    {
        let mut names = self.names;
        for segment in Segments::of(text) {
            let Some(name) = names.next() else {
                return false;
            };
            if !is_same(name, segment) {
                return false;
            }
        }
        names.next().is_none()
    }

    /// Whether a text is the path with an ending.
    pub fn is_with(self, ending: &[u8], text: &[u8]) -> bool
        ensures { result ≡ bytes_eq text.now (joined_text self.entry ++ ending.now) }
    {
        match text.strip_suffix(ending) {
            Some(stem) => self.is_all_of(stem),
            None => false,
        }
    }
}
