//! The one ordered table: rows of any kind, kept in strictly rising order of their keys or appended as they come, in
//! memory that the caller lends.
#![tactic(auto)]

mod binding;
mod loose_end;
mod place;
mod row;
mod rows;
mod table;

pub use binding::Binding;
pub use loose_end::LooseEnd;
pub use row::Row;
pub use rows::{ascending, is_zero_from, search_by};
pub use table::{Full, OrderedTable};
