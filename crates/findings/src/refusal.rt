//! What an analysis is refused for. docs/FAULTS.md has the numbers.
ghost use Rattle.std.specs.Prelude.{◌≡◌};
ghost use Rattle.findings.specs.Tables.{describe};

use fault::{Fault, Layer};

/// A findings table had no row left for something new: the module that the tree belongs to, and the row at which the
/// analysis stood.
// An enum, of one case so far, as `TreeFault` is: callers match on it, and a later refusal is a case more.
#[derive(Clone, Copy, PartialEq, Eq, Debug)]
pub enum FindingsFault {
    Full { module: u32, row: usize },
}

/// The number, the layer, the module and the place of the refusal.
impl From<FindingsFault> for Fault {
    ghost from_gives = { λ refusal r. r ≡ describe refusal };

    fn from(refusal: FindingsFault) -> Self {
        let FindingsFault::Full { module, row } = refusal;
        Fault {
            number: 6,
            layer: Layer::Findings,
            module,
            place: row,
        }
    }
}
