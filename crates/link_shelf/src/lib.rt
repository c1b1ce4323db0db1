//! Link shelves: hosts that list every link. docs/HOSTS.md defines them.
#![tactic(auto)]

mod check;
mod checked;
mod layout;
mod link;

pub use checked::LinkShelf;
