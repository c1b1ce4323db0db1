//! The CommonJS analysis: one walk over a tree that fills the findings tables. docs/FINDINGS.md has the rules.
#![tactic(auto)]

mod analysis;
mod bindings;
mod bound;
mod perform;
mod visit;
mod visited;
mod walk;

pub use analysis::analyze_cjs;
