//! Path shelves: hosts that work links out from the paths of modules. docs/HOSTS.md defines them.
#![tactic(auto)]

mod check;
mod checked;
mod layout;
mod lookup;

pub use checked::PathShelf;
