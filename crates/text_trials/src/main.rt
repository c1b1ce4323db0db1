//! Runs the functions of `text` over fixed bytes and prints a line for each case.
#![tactic(auto)]

mod cases;
mod show;
mod texts;

use cases::{NUMBERS, ORDERS, PARTS, WORDS, WRITINGS};
use show::{show_number, show_order, show_part, show_word, show_writing};
use std::io;
use texts::show_texts;

/// Prints the lines of all cases.
fn main(rt: HostRuntime) -> io::Result<()> {
    show_texts(rt)?;
    for (a, b) in &ORDERS {
        show_order(rt, a, b)?;
    }
    for (text, size, at) in &WRITINGS {
        show_writing(rt, text, *size, *at)?;
    }
    for (bytes, at) in &NUMBERS {
        show_number(rt, bytes, *at)?;
    }
    for (bytes, offset, length) in &PARTS {
        show_part(rt, bytes, *offset, *length)?;
    }
    for (text, word) in &WORDS {
        show_word(rt, text, word)?;
    }
    Ok(())
}
