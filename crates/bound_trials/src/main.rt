//! Blocks at the bounds that are too large to keep in a file, each with its answer.
#![tactic(auto)]

mod build;

use answers::{LONGEST_BLOCK, LineKind, ReportText, Sizes, answer_stream, report_for};
use build::{chain, flat, framed, full, full_but, names, padded};
use std::io;
use std::io::Read;

/// Prints the lines for a stream.
fn answer<R: Read>(rt: &HostRuntime, input: &mut R) -> io::Result<()> {
    let (kind, sizes) = (LineKind::Findings, Sizes::LARGEST);
    answer_stream(rt.alloc(), kind, sizes, input, &mut rt.stdout())
}

/// Prints the line for a block.
fn show(rt: &HostRuntime, name: &str, block: &[u8]) -> io::Result<()> {
    let length = block.len();
    print!(rt; "{name} ({length} bytes): ")?;
    let head = (length.min(LONGEST_BLOCK + 1) as u32).to_le_bytes();
    answer(rt, &mut head.as_slice().chain(block))
}

/// Prints the lines for a stream.
fn show_stream(rt: &HostRuntime, name: &str, stream: &[u8]) -> io::Result<()> {
    println!(rt; "{name}:")?;
    let mut input = stream;
    answer(rt, &mut input)
}

/// Blocks at each bound and one past it.
fn blocks(rt: &HostRuntime) -> io::Result<()> {
    let heap = rt.alloc();
    show(rt, "65,536 rows", &flat(heap, 65_536)?)?;
    show(rt, "65,537 rows", &flat(heap, 65_537)?)?;
    show(rt, "a row under 256 others", &chain(heap, 257)?)?;
    show(rt, "a row under 257 others", &chain(heap, 258)?)?;
    show(rt, "a row under 300 others", &chain(heap, 301)?)?;
    show(rt, "the largest block", &padded(heap, LONGEST_BLOCK)?)?;
    show(rt, "one byte more", &padded(heap, LONGEST_BLOCK + 1)?)
}

/// The largest block with the most rows, and the same with one byte otherwise. Its last row begins at byte 1,310,716.
fn full_blocks(rt: &HostRuntime) -> io::Result<()> {
    let heap = rt.alloc();
    show(
        rt,
        "the most rows, and a text to the last byte",
        &full(heap)?,
    )?;
    show(rt, "a text of one byte more", &full_but(heap, 12, 0xF1)?)?;
    show(
        rt,
        "the last row's end above the count",
        &full_but(heap, 1_310_732, 1)?,
    )?;
    show(
        rt,
        "the last row of no kind",
        &full_but(heap, 1_310_716, 99)?,
    )?;
    show(
        rt,
        "the last row's text of one byte more",
        &full_but(heap, 1_310_728, 0xF1)?,
    )?;
    show(
        rt,
        "the last byte of the text not UTF-8",
        &full_but(heap, 4_194_303, 0xFF)?,
    )
}

/// How long the longest list is: a comma stands before each name but the first.
fn most_names(rt: &HostRuntime) -> io::Result<()> {
    let heap = rt.alloc();
    let block = names(heap)?;
    let head = (block.len().min(LONGEST_BLOCK) as u32).to_le_bytes();
    let mut line = Vec::new(heap);
    let (kind, sizes) = (LineKind::Findings, Sizes::LARGEST);
    let mut input = head.as_slice().chain(block.as_slice());
    answer_stream(heap, kind, sizes, &mut input, &mut line)?;
    let commas = line.iter().filter(|byte| **byte == b',').count();
    println!(rt; "commas in the line of the most names: {commas}")
}

/// A block of another module than 0.
fn of_a_module(rt: &HostRuntime) -> io::Result<()> {
    println!(rt; "no bytes, of module 7: {}", ReportText(report_for(7, b"")))
}

/// Streams that are empty or cut short. The last two end inside a block of almost 2^32 bytes.
fn short_streams(rt: &HostRuntime) -> io::Result<()> {
    show_stream(rt, "no block", b"")?;
    show_stream(rt, "one byte of a length", b"\x00")?;
    show_stream(rt, "two bytes of a length", b"\x00\x00")?;
    show_stream(rt, "three bytes of a length", b"\x00\x00\x00")?;
    show_stream(rt, "a length cut short", b"\x10\x00\x00")?;
    show_stream(
        rt,
        "an empty block and a block cut short",
        b"\x00\x00\x00\x00\x02\x00\x00\x00a",
    )?;
    // Four zero bytes of it are there: taken for the next length, they would get a line of their own.
    show_stream(
        rt,
        "a block of 4294967295 bytes cut short",
        b"\xff\xff\xff\xff\x00\x00\x00\x00",
    )?;
    show_stream(
        rt,
        "a block of 4294967292 bytes cut short",
        b"\xfc\xff\xff\xff\x00\x00\x00\x00",
    )
}

/// Streams with a block that is too long and a small one after it: the last one is cut short inside the long block.
fn long_streams(rt: &HostRuntime) -> io::Result<()> {
    let heap = rt.alloc();
    let longest = LONGEST_BLOCK as u32;
    show_stream(
        rt,
        "the largest block, one byte more, and a small one",
        &framed(heap, &[longest, longest + 1, 36])?,
    )?;
    show_stream(
        rt,
        "twice the largest length, and a small block",
        &framed(heap, &[2 * longest, 36])?,
    )?;
    show_stream(
        rt,
        "one byte more than twice the largest length, and a small block",
        &framed(heap, &[2 * longest + 1, 36])?,
    )?;
    let whole = framed(heap, &[longest, 4_194_400])?;
    let cut = whole.len().min(8_388_700);
    show_stream(
        rt,
        "a block too long that the stream cuts short",
        &whole[0..cut],
    )
}

/// Prints all of them.
fn main(rt: HostRuntime) -> io::Result<()> {
    blocks(&rt)?;
    full_blocks(&rt)?;
    most_names(&rt)?;
    of_a_module(&rt)?;
    short_streams(&rt)?;
    long_streams(&rt)
}
