//! The kinds of rows, and which text, marks and children each has. docs/TREE.md has the table.
#![tactic(auto)]

pub mod kind;
mod number;
pub mod shape;
mod table;
