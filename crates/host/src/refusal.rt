//! What hosts refuse. docs/FAULTS.md has the numbers.
ghost use Rattle.std.specs.Prelude.{◌≡◌, Some};
ghost use Rattle.host.specs.Refused.{describe, reason_words};

use fault::{Fault, Layer};
use std::error::Error;
use std::fmt;

/// The refusal of a shelf's bytes, or of a question about a module that the host does not have.
#[derive(Clone, Copy, PartialEq, Eq, Debug)]
pub enum HostFault {
    Shelf,
    Beyond { module: u32 },
}

/// The number, the layer, the module and the place of the refusal.
impl From<HostFault> for Fault {
    ghost from_gives = { λ refusal r. r ≡ describe refusal };

    fn from(refusal: HostFault) -> Self {
        let (number, module) = match refusal {
            HostFault::Shelf => (7, 0),
            HostFault::Beyond { module } => (16, module),
        };
        Fault {
            number,
            layer: Layer::Host,
            module,
            place: 0,
        }
    }
}

/// What the refusal says, in words.
impl fmt::Display for HostFault {
    ghost output = { λ x. Some (reason_words x) };

    fn fmt<W: fmt::Write>(&self, f: &mut fmt::Formatter<W>) -> fmt::Result {
        f.write_str(match self {
            HostFault::Shelf => "the bytes are no lawful shelf",
            HostFault::Beyond { .. } => "the host has no such module",
        })
    }
}

/// No error lies under a refusal.
impl Error for HostFault {}
