//! Large blocks, made in memory.
use kinds::kind::Kind;
use std::alloc::{AllocError, Global};

/// Adds 32-bit little-endian numbers.
fn put(block: &mut Vec<u8>, numbers: &[u32]) -> Result<(), AllocError> {
    for number in numbers {
        block.extend_from_slice(&number.to_le_bytes())?;
    }
    Ok(())
}

/// The header of a block with so many rows and no text.
fn header(count: u32) -> [u32; 4] {
    // Saturating, here and in `flat`: no contract bounds the counts, and a sum must not wrap. The format's numbers are
    // written out, since the trials do not take them from the code that they try.
    let rows = count.saturating_mul(20);
    [16, rows, rows.saturating_add(16), 0]
}

/// A row with no text.
fn row(kind: Kind, mark: u32, end: u32) -> [u32; 5] {
    [kind.number(), mark, 0, 0, end]
}

/// A script of so many rows, all but the first of them under the first. Where the others end is asked by their numbers.
fn script<F: Fn(u32) -> u32>(heap: Global, count: u32, end: F) -> Result<Vec<u8>, AllocError>
    requires { F.IsAlwaysCallable end }
{
    let mut block = Vec::new(heap);
    put(&mut block, &header(count))?;
    put(&mut block, &row(Kind::Program, 1, count))?;
    for j in 1..count {
        put(&mut block, &row(Kind::Other, 0, end(j)))?;
    }
    Ok(block)
}

/// A script of so many rows, all but the first of them children of the first.
pub(crate) fn flat(heap: Global, count: u32) -> Result<Vec<u8>, AllocError> {
    script(heap, count, |j| j.saturating_add(1))
}

/// A script of so many rows, each under the one before.
pub(crate) fn chain(heap: Global, count: u32) -> Result<Vec<u8>, AllocError> {
    script(heap, count, |_| count)
}

/// A script of one row in a block of so many bytes.
pub(crate) fn padded(heap: Global, length: usize) -> Result<Vec<u8>, AllocError> {
    let mut block = flat(heap, 1)?;
    block.resize(length, 0xff)?;
    Ok(block)
}

/// A largest block of as many rows as there may be. The last of them has the whole text, which ends with the block.
pub(crate) fn full(heap: Global) -> Result<Vec<u8>, AllocError> {
    let mut block = Vec::new(heap);
    put(&mut block, &[16, 1_310_720, 1_310_736, 2_883_568])?;
    put(&mut block, &row(Kind::Program, 1, 65_536))?;
    for end in 2..65_536u32 {
        put(&mut block, &row(Kind::Other, 0, end))?;
    }
    put(&mut block, &[Kind::Ident.number(), 0, 0, 2_883_568, 65_536])?;
    block.resize(4_194_304, b'a')?;
    Ok(block)
}

/// Adds the last five decimal digits of a number.
fn put_digits(text: &mut Vec<u8>, number: u32) -> Result<(), AllocError> {
    for unit in [10_000, 1_000, 100, 10, 1u32] {
        let digit = (number / unit % 10) as u8;
        text.extend_from_slice(&[b'0' + digit])?;
    }
    Ok(())
}

/// A script that exports as many names as a block has rows for, by one assignment of an object. Each has five digits.
pub(crate) fn names(heap: Global) -> Result<Vec<u8>, AllocError> {
    let mut block = Vec::new(heap);
    put(&mut block, &[16, 1_310_720, 1_310_736, 327_667])?;
    put(&mut block, &row(Kind::Program, 1, 65_536))?;
    put(&mut block, &row(Kind::Assign, 0, 65_536))?;
    put(&mut block, &[Kind::Ident.number(), 0, 0, 7, 3])?;
    put(&mut block, &row(Kind::Object, 0, 65_536))?;
    for j in 4..65_536u32 {
        put(
            &mut block,
            &[Kind::Shorthand.number(), 0, 5 * j - 13, 5, j + 1],
        )?;
    }
    block.extend_from_slice(b"exports")?;
    for j in 4..65_536u32 {
        put_digits(&mut block, j)?;
    }
    Ok(block)
}

/// The largest block of the most rows, with another byte at a place.
pub(crate) fn full_but(heap: Global, at: usize, byte: u8) -> Result<Vec<u8>, AllocError> {
    let mut block = full(heap)?;
    if let Some(there) = block.get_mut(at) {
        *there = byte;
    }
    Ok(block)
}

/// A stream of blocks of so many bytes, each a script of one row.
pub(crate) fn framed(heap: Global, lengths: &[u32]) -> Result<Vec<u8>, AllocError> {
    let mut stream = Vec::new(heap);
    for length in lengths {
        put(&mut stream, &[*length])?;
        stream.extend_from_slice(&padded(heap, *length as usize)?)?;
    }
    Ok(stream)
}
