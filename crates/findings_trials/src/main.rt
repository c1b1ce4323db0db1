//! Answers the trials of both analyses in this crate's `stdin`, which tools/findings_cases.py makes: first by the lines
//! of `findings`, then by those of `answers`. The lines in `stdout` come from answers written by hand.
#![tactic(auto)]

use answers::{LineKind, Sizes, answer_stream};
use std::io;
use std::io::{BufWriter, Read, Write};

/// Answers the standard input twice.
fn main(rt: HostRuntime) -> io::Result<()> {
    let heap = rt.alloc();
    let mut stream = Vec::new(heap);
    rt.stdin().read_to_end(&mut stream)?;
    let mut output = BufWriter::new(heap, rt.stdout())?;
    for kind in [LineKind::Findings, LineKind::Answers] {
        let mut input = stream.as_slice();
        answer_stream(heap, kind, Sizes::LARGEST, &mut input, &mut output)?;
    }
    output.flush()
}
