//! Paths of modules, and the specifiers that are joined to them. docs/HOSTS.md has the rules.
#![tactic(auto)]

mod cut;
mod joined;
mod names;
mod path;
mod segments;

pub use joined::Joined;
pub use path::is_path;
