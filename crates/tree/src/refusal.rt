//! What a check refuses a block for. docs/FAULTS.md has the numbers.
ghost use Rattle.std.specs.Prelude.{◌≡◌, ℕ, ◌<◌, List, length, Some};
ghost use Rattle.tree.specs.Verdict.{Verdict, describe, reason_words};

use fault::{Fault, Layer};
use std::error::Error;
use std::fmt;

/// The refusal of a block, with the module that it belongs to and, but for the layout, the first row that offends.
// Each case has its module and its row, so that a caller who matches one case has them.
#[derive(Clone, Copy, PartialEq, Eq, Debug)]
pub enum TreeFault {
    Layout { module: u32 },
    End { module: u32, row: usize },
    Depth { module: u32, row: usize },
    Shape { module: u32, row: usize },
    Text { module: u32, row: usize },
}

impl TreeFault {
    /// The refusal of a block of more than 4,194,304 bytes, whatever they are.
    #[tactic(auto, using(crate::specs::Verdict::bad_layout))]
    pub fn too_long(module: u32) -> Self
        ensures { (block : List ℕ) → 4194304 < length block → Verdict «module» block (Some (describe result)) }
    {
        Self::Layout { module }
    }
}

/// The number, the layer, the module and the place of the refusal.
impl From<TreeFault> for Fault {
    ghost from_gives = { λ refusal r. r ≡ describe refusal };

    fn from(refusal: TreeFault) -> Self {
        let (number, module, place) = match refusal {
            TreeFault::Layout { module } => (1, module, 0),
            TreeFault::End { module, row } => (2, module, row),
            TreeFault::Depth { module, row } => (3, module, row),
            TreeFault::Shape { module, row } => (4, module, row),
            TreeFault::Text { module, row } => (5, module, row),
        };
        Fault {
            number,
            layer: Layer::Tree,
            module,
            place,
        }
    }
}

/// What the refusal says, in words.
impl fmt::Display for TreeFault {
    ghost output = { λ x. Some (reason_words x) };

    fn fmt<W: fmt::Write>(&self, f: &mut fmt::Formatter<W>) -> fmt::Result {
        f.write_str(match self {
            TreeFault::Layout { .. } => "the block's size or its sections are not lawful",
            TreeFault::End { .. } => "the row at this place has an unlawful end",
            TreeFault::Depth { .. } => "more than 256 rows enclose the row at this place",
            TreeFault::Shape { .. } => "the row at this place does not fit the table of kinds",
            TreeFault::Text { .. } => "the text of the row at this place is not lawful",
        })
    }
}

/// No error lies under a refusal.
impl Error for TreeFault {}
