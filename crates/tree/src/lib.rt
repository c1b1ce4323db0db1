//! Tree blocks: the check of a block's bytes, and the tree that a lawful block holds. docs/TREE.md defines the block.
#![tactic(auto)]

mod access;
mod check;
mod child_rows;
mod depth;
mod ends;
mod family;
mod layout;
mod nested;
mod node;
mod nodes;
mod refusal;
mod row;
mod rows;
mod shapes;
mod texts;
mod tree;

pub use layout::LONGEST_BLOCK;
pub use node::{Children, Node};
pub use refusal::TreeFault;
pub use row::Row;
pub use tree::Tree;
