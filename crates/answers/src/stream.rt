//! Streams: block after block, each announced by its length in four bytes, and each answered by a line.
ghost use Rattle.std.specs.Prelude.{◌≡◌, ◌≤◌, ◌<◌, ℕ, List, length, take, IfOk, IfSome, OnOk, Some, codes};
ghost use Rattle.std.specs.Io.KnownBytes.{Consumes, IsAtEnd};
ghost use Rattle.answers.specs.Answers.{LineFor, WritesLine, lines_by};
ghost use Rattle.answers.specs.Memory.{size_room};
ghost use Rattle.answers.specs.Stream.{AnswersAll, NextAnswered, NextLength, SameLines, Takes, Within, announced_by, kept_of, sized};
ghost use Rattle.answers.specs.declared.stream.StreamError.TheVariants.{CutShort, Io};
ghost use Rattle.findings.specs.Tables.{Room};

use crate::answer::{BlockLines, LineKind};
use crate::memory::{Sizes, TableMemory};
use block_lines::refusal_of_too_long;
use std::alloc::Global;
use std::error::Error;
use std::io::{Read, Write};
use std::{fmt, io};
use tree::LONGEST_BLOCK;

/// How many rows at most a table has in which a block is analysed first.
const SMALL: usize = 1_024;

/// The length of a block: of one that fits into the room there is, or of one that is too long for it.
// No bare number, as `announced` promises which it is; no `Result`, in which a length would be called a failure; no
// `Option` of a part of the buffer, as a block that is too long is read past by its length.
#[derive(Clone, Copy, PartialEq, Eq, Debug)]
pub enum Length {
    Fits(usize),
    TooLong(usize),
}

/// The stream ended inside a length or a block.
#[derive(Clone, Copy, PartialEq, Eq, Debug)]
pub struct CutShort;

/// Why a stream is answered no further.
// Both `From` by hand: one that `thiserror` derives has no `from_gives`, and the clauses below name the error that a
// `?` makes.
#[derive(Debug, Drop)]
enum StreamError {
    CutShort(CutShort),
    Io(io::Error),
}

/// The stream ended too early.
impl From<CutShort> for StreamError {
    ghost from_gives = { λ cut error. error ≡ CutShort cut };

    fn from(cut: CutShort) -> Self {
        StreamError::CutShort(cut)
    }
}

/// The input or the output failed.
impl From<io::Error> for StreamError {
    ghost from_gives = { λ failure error. error ≡ Io failure };

    fn from(error: io::Error) -> Self {
        StreamError::Io(error)
    }
}

/// The line of a stream that is cut short.
impl fmt::Display for CutShort {
    ghost output = { λ _. Some (codes "short") };

    fn fmt<W: fmt::Write>(&self, f: &mut fmt::Formatter<W>) -> fmt::Result {
        f.write_str("short")
    }
}

/// No error lies under it.
impl Error for CutShort {}

/// How it is told which of the two it is.
impl Length {
    /// Which it is, where there is room for so many bytes.
    fn new(length: usize, room: usize) -> Self
        ensures { result ≡ sized length room }
    {
        if length <= room {
            Length::Fits(length)
        } else {
            Length::TooLong(length)
        }
    }
}

/// What a length announces, of which the stream gave these bytes: at most four, and fewer only where it ended.
/// Where it gave none, there is no block more. A block fits where it has at most `room` bytes.
pub fn announced(head: &[u8], room: usize) -> Result<Option<Length>, CutShort>
    ensures exact { result ≡ announced_by head.now room }
    ensures within { IfOk result (λ next. IfSome next (Within room)) }
{
    match head {
        [] => Ok(None),
        &[a, b, c, d, ..] => {
            let length = u32::from_le_bytes([a, b, c, d]) as usize;
            Ok(Some(Length::new(length, room)))
        }
        _ => Err(CutShort),
    }
}

/// Whether a block of `count` bytes is whole, of which the stream gave `given`.
fn whole(given: usize, count: usize) -> Result<(), CutShort>
    ensures { result ≡ kept_of given count }
{
    if given < count { Err(CutShort) } else { Ok(()) }
}

/// Fills the buffer from the input, and answers how many bytes came: fewer only where the input ended.
fn fill<R: Read>(input: &mut R, buffer: &mut [u8]) -> io::Result<usize>
    ensures bound { IfOk result (λ n. n ≤ length buffer.old) }
    ensures given { IfOk result (λ n. Consumes (R.remaining input.old) (R.remaining input.new) (take n buffer.new)) }
    ensures end { IfOk result (λ n. n < length buffer.old → IsAtEnd (R.remaining input.new)) }
{
    let mut done = 0;
    // By hand: of an input that ends, std's `copy` from a `take` says not what is left, nor `read_exact` what it had.
    while done < buffer.len() {
        let got = input.read(&mut buffer[done..])?;
        if got == 0 {
            return Ok(done);
        }
        done += got;
    }
    Ok(done)
}

/// Fills the whole buffer from the input.
fn fill_whole<R: Read>(input: &mut R, buffer: &mut [u8]) -> Result<(), StreamError>
    ensures takes { Takes (length buffer.old) (R.remaining input.old) (R.remaining input.new) result }
    ensures given { OnOk result (Consumes (R.remaining input.old) (R.remaining input.new) buffer.new) }
{
    let given = fill(input, buffer)?;
    whole(given, buffer.len())?;
    Ok(())
}

/// Reads past so many bytes of the input: those of a block that is too long are not kept.
// No struct of input and buffer: begun, and longer than this, as each use lends both fields again. The check covers no
// `[..n]` of an array behind a field.
fn pass_over<R: Read>(
    input: &mut R,
    buffer: &mut [u8; LONGEST_BLOCK],
    count: usize,
) -> Result<(), StreamError>
    ensures { Takes count (R.remaining input.old) (R.remaining input.new) result }
{
    for _ in 0..count / LONGEST_BLOCK {
        fill_whole(input, buffer)?;
    }
    fill_whole(input, &mut buffer[..count % LONGEST_BLOCK])
}

/// The length of the next block, if one follows.
fn next_length<R: Read>(input: &mut R, room: usize) -> Result<Option<Length>, StreamError>
    ensures length { NextLength room (R.remaining input.old) (R.remaining input.new) result }
    ensures within { IfOk result (λ next. IfSome next (Within room)) }
{
    let mut head = [0u8; 4];
    let given = fill(input, &mut head)?;
    Ok(announced(&head[..given], room)?)
}

/// Writes the line for a block that is too long, whatever its bytes are.
fn write_too_long<W: Write>(output: &mut W) -> io::Result<()>
    ensures { OnOk result ((block : List ℕ) → LONGEST_BLOCK < length block → (kind : LineKind) (cjs es : Room) → WritesLine (LineFor kind cjs es block) (W.contents output.old) (W.contents output.new)) }
{
    writeln!(output, "{}", refusal_of_too_long(0))
}

/// Answers the next block by its line, if one follows, and says whether one did. The block is read into the buffer, or
/// past it where it is too long.
fn answer_next<R: Read, W: Write>(
    lines: &mut BlockLines,
    buffer: &mut [u8; LONGEST_BLOCK],
    input: &mut R,
    output: &mut W,
) -> Result<bool, StreamError>
    ensures next { NextAnswered (lines_by lines.old) (R.remaining input.old) (R.remaining input.new) (W.contents output.old) (W.contents output.new) result }
    ensures kept { SameLines lines.old lines.new }
{
    let Some(length) = next_length(input, buffer.len())? else {
        return Ok(false);
    };
    match length {
        Length::Fits(count) => {
            let block = &mut buffer[..count];
            fill_whole(input, block)?;
            lines.write_line(block, output)?;
        }
        Length::TooLong(count) => {
            pass_over(input, buffer, count)?;
            write_too_long(output)?;
        }
    }
    Ok(true)
}

/// Answers each block of the input by a line on the output. A stream that ends inside a length or a block gets `short`.
/// It keeps one block at a time, in the buffer. After an `Err` some of the lines may be written.
pub fn answer_stream_in<R: Read, W: Write>(
    lines: &mut BlockLines,
    buffer: &mut [u8; LONGEST_BLOCK],
    input: &mut R,
    output: &mut W,
) -> io::Result<()>
    ensures all { OnOk result (AnswersAll (lines_by lines.old) (R.remaining input.old) (W.contents output.old) (W.contents output.new)) }
    ensures kept { SameLines lines.old lines.new }
{
    // A loop has to end, and nothing says that an input does. Each turn takes four bytes at least.
    for _ in 0..u64::MAX {
        match answer_next(lines, buffer, input, output) {
            Ok(true) => {}
            Ok(false) => return Ok(()),
            Err(StreamError::CutShort(cut)) => return writeln!(output, "{cut}"),
            Err(StreamError::Io(error)) => return Err(error),
        }
    }
    Ok(())
}

/// Answers each block of the input as `answer_stream_in` does, by lines of a kind, in a buffer and in tables of its own,
/// of these sizes for each analysis.
pub fn answer_stream<R: Read, W: Write>(
    heap: Global,
    kind: LineKind,
    sizes: Sizes,
    input: &mut R,
    output: &mut W,
) -> io::Result<()>
    ensures { OnOk result (AnswersAll (LineFor kind (size_room sizes) (size_room sizes)) (R.remaining input.old) (W.contents output.old) (W.contents output.new)) }
{
    let mut buffer = vec![in heap; 0u8; LONGEST_BLOCK]?;
    // Proved: the buffer has `LONGEST_BLOCK` bytes.
    let room = buffer.as_mut_slice().try_into().unwrap();
    let small = sizes.at_most(SMALL);
    let mut cjs = TableMemory::new(heap, sizes)?;
    let mut es = TableMemory::new(heap, sizes)?;
    let mut small_cjs = TableMemory::new(heap, small)?;
    let mut small_es = TableMemory::new(heap, small)?;
    let mut lines = BlockLines {
        kind,
        cjs: cjs.tables(),
        es: es.tables(),
        small_cjs: small_cjs.tables(),
        small_es: small_es.tables(),
    };
    answer_stream_in(&mut lines, room, input, output)
}
