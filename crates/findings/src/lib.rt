//! What a tree is found to be and to export. docs/FINDINGS.md has the rules.
#![tactic(auto)]

pub mod parsed_source;
mod refusal;
mod tables;

pub use refusal::FindingsFault;
pub use tables::FindingsTables;
