//! Lists of places as programs print them, proved down to the character. Nothing here allocates.
#![tactic(auto)]

mod listed;
mod places;
mod texts;

pub use listed::{Listed, Manner};
pub use places::{Bindings, ByNumbers, Lists, Places};
pub use texts::{ByTexts, LooseTexts, bytes_at};
