//! Asks the shelves in this crate's `stdin`, which tools/host_cases.py makes with the answers in `stdout`.
#![tactic(auto)]

mod alias;
mod callers;
mod input;
mod show;

use input::Input;
use show::show_case;
use std::io;
use std::io::{BufWriter, Read, Write};

/// Asks the shelves of the standard input.
fn main(rt: HostRuntime) -> io::Result<()> {
    let mut bytes = Vec::new(rt.alloc());
    rt.stdin().read_to_end(&mut bytes)?;
    let mut input = Input { rest: &bytes };
    let mut output = BufWriter::new(rt.alloc(), rt.stdout())?;
    for _ in 0..input.number().unwrap_or_default() {
        if show_case(&mut output, &mut input)?.is_none() {
            break;
        }
    }
    output.flush()
}
