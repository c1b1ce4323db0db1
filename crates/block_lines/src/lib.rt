//! What the program answers for a tree block: from the block's bytes to the characters of a line.
#![tactic(auto)]

mod analyses;
mod answer;
mod line;

pub use analyses::{Analyses, analyse, analyse_tree};
pub use answer::{answers_line, findings_line, refusal_of_too_long};
pub use fault::Line;
pub use line::{AnswersLine, FindingsLine, Names, Part, Report};
