//! The names that a module exports and the modules that it re-exports. docs/FINDINGS.md has the rules.
#![tactic(auto)]

mod append;
mod exports;
mod find_pat_ids;
mod items;

pub use exports::analyze_es_runtime_exports;
