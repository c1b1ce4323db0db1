//! What the program prints: the lines of a stream of tree blocks, and what a block is in words for people.
#![tactic(auto)]

mod answer;
mod memory;
mod report;
mod stream;

pub use answer::{BlockLines, LineKind};
pub use memory::Sizes;
pub use report::{Report, ReportText, report_for, write_report};
pub use stream::{CutShort, Length, announced, answer_stream, answer_stream_in};
pub use tree::LONGEST_BLOCK;
