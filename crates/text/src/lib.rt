//! Bytes of a text: numbers and stretches of them, UTF-8 and WTF-8, and the readings of text that may hold surrogates.
#![tactic(auto)]

mod number;
mod place;
mod points;
mod reading;
mod word;

pub use number::read_le32;
pub use place::{Place, part};
pub use points::{is_utf8, is_wtf8};
pub use reading::{LooseBytes, compare_loose, equal_loose, plain_of, write_loose};
pub use word::is_word;
