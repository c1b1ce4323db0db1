//! Answers the trials with few rows in this crate's `stdin`, which tools/findings_cases.py makes. Each block stands after
//! the four sizes of its tables and its length. The lines in `stdout` come from answers written by hand.
#![tactic(auto)]

use answers::{LineKind, Sizes, answer_stream};
use std::io;
use std::io::{BufWriter, Read, Write};
use text::read_le32;

/// A number that stands at a byte.
fn number(bytes: &[u8], at: usize) -> usize {
    read_le32(bytes, at) as usize
}

/// The sizes that a trial begins with.
fn sizes(trial: &[u8]) -> Sizes {
    Sizes {
        bindings: number(trial, 0),
        exports: number(trial, 4),
        reexports: number(trial, 8),
        unsafes: number(trial, 12),
    }
}

/// Answers each trial.
fn main(rt: HostRuntime) -> io::Result<()> {
    let heap = rt.alloc();
    let mut trials = Vec::new(heap);
    rt.stdin().read_to_end(&mut trials)?;
    let mut output = BufWriter::new(heap, rt.stdout())?;
    let mut rest = trials.as_slice();
    // Each turn takes a trial, which has some bytes.
    for _ in 0..trials.len() {
        let Some((head, more)) = rest.split_at_checked(16) else {
            break;
        };
        let length = read_le32(more, 0) as usize;
        let block = more.get(0..4 + length).unwrap_or(more);
        let mut input = block;
        answer_stream(
            heap,
            LineKind::Findings,
            sizes(head),
            &mut input,
            &mut output,
        )?;
        rest = &more[block.len()..];
    }
    output.flush()
}
