//! Answers the stream of blocks in this crate's `stdin`, which tools/tree_cases.py makes with the answers in `stdout`.
#![tactic(auto)]

use answers::{LineKind, Sizes, answer_stream};
use std::io;
use std::io::{BufReader, BufWriter, Write};

/// Answers the standard input.
fn main(rt: HostRuntime) -> io::Result<()> {
    // As `export_names findings` does, which is a program and no library.
    let mut input = BufReader::new(rt.alloc(), rt.stdin())?;
    let mut output = BufWriter::new(rt.alloc(), rt.stdout())?;
    let (kind, sizes) = (LineKind::Findings, Sizes::LARGEST);
    answer_stream(rt.alloc(), kind, sizes, &mut input, &mut output)?;
    output.flush()
}
