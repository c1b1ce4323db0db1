//! Answers the blocks in this crate's `stdin`. The lines in `stdout` are those that the ported source gives for the same
//! trees: tools/reference_sample.py says how they were made.
#![tactic(auto)]

use answers::{LineKind, Sizes, answer_stream};
use std::io;
use std::io::{BufReader, BufWriter, Write};

/// Answers the standard input as `export_names answers` does.
fn main(rt: HostRuntime) -> io::Result<()> {
    let mut input = BufReader::new(rt.alloc(), rt.stdin())?;
    let mut output = BufWriter::new(rt.alloc(), rt.stdout())?;
    let (kind, sizes) = (LineKind::Answers, Sizes::LARGEST);
    answer_stream(rt.alloc(), kind, sizes, &mut input, &mut output)?;
    output.flush()
}
