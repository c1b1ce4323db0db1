//! What the analyses list of a block, in words for people, proved down to the character. Nothing here allocates.
#![tactic(auto)]

mod names;
mod quoted;

pub use names::{ListedNames, Rules, listed};
pub use quoted::CountedNames;
