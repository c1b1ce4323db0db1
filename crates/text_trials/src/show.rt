//! The lines that are printed.
use std::cmp::Ordering;
use std::{fmt, io};
use text::{
    Place, compare_loose, equal_loose, is_utf8, is_word, is_wtf8, part, plain_of, read_le32,
    write_loose,
};

/// Bytes, to be printed.
#[derive(Clone, Copy)]
struct Hex<'a>(&'a [u8]);

/// The bytes in hexadecimal digits, or `-` where there are none.
impl fmt::Display for Hex<'_> {
    fn fmt<W: fmt::Write>(&self, f: &mut fmt::Formatter<W>) -> fmt::Result {
        if self.0.is_empty() {
            return f.write_str("-");
        }
        for byte in self.0 {
            write!(f, "{byte:02X}")?;
        }
        Ok(())
    }
}

/// Whether the text is UTF-8, is WTF-8 and has a plain reading, and its loose reading.
pub(crate) fn show_text(rt: HostRuntime, bytes: &[u8]) -> io::Result<()> {
    let mut out = [0; 16];
    let text = Hex(bytes);
    let (utf8, wtf8) = (is_utf8(bytes), is_wtf8(bytes));
    let plain = plain_of(bytes).is_some();
    print!(rt; "text {text} {utf8} {wtf8} {plain} ")?;
    match write_loose(bytes, &mut out, 0) {
        Some(end) => println!(rt; "{}", Hex(part(&out, 0, end))),
        None => println!(rt; "too long"),
    }
}

/// The order of two texts by their loose readings, and whether these are equal.
pub(crate) fn show_order(rt: HostRuntime, a: &[u8], b: &[u8]) -> io::Result<()> {
    // Not by `{:?}`, which has a capital.
    let order = match compare_loose(a, b) {
        Ordering::Less => "less",
        Ordering::Equal => "equal",
        Ordering::Greater => "greater",
    };
    println!(rt; "order {} {} {order} {}", Hex(a), Hex(b), equal_loose(a, b))
}

/// Where a loose reading ends that is written over `size` bytes of `#`, and what they then hold.
pub(crate) fn show_writing(rt: HostRuntime, text: &[u8], size: usize, at: usize) -> io::Result<()> {
    let mut room = [b'#'; 16];
    let length = size.min(room.len());
    let out = &mut room[..length];
    print!(rt; "writing {} {size} {at} ", Hex(text))?;
    match write_loose(text, out, at) {
        Some(end) => print!(rt; "{end}")?,
        None => print!(rt; "none")?,
    }
    println!(rt; " {}", Hex(out))
}

/// The number at an offset.
pub(crate) fn show_number(rt: HostRuntime, bytes: &[u8], at: usize) -> io::Result<()> {
    println!(rt; "number {} {at} {}", Hex(bytes), read_le32(bytes, at))
}

/// The stretch at an offset, by the function and by a place.
pub(crate) fn show_part(rt: HostRuntime, bytes: &[u8], offset: u32, length: u32) -> io::Result<()> {
    let by_function = Hex(part(bytes, offset as usize, length as usize));
    let by_place = Hex(Place { offset, length }.part(bytes));
    println!(rt;
        "part {} {offset} {length} {by_function} {by_place}",
        Hex(bytes)
    )
}

/// Whether a text is a word.
pub(crate) fn show_word(rt: HostRuntime, text: &[u8], word: &[u8]) -> io::Result<()> {
    println!(rt; "word {} {} {}", Hex(text), Hex(word), is_word(text, word))
}
