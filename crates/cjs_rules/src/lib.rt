//! The rules of CommonJS exports, under the names of the ported source's helpers. docs/FINDINGS.md states them.
#![tactic(auto)]

pub mod calls;
pub mod exports_object;
pub mod harmless;
pub mod prop_name;
pub mod properties;
pub mod require;
pub mod returned;
pub mod words;
