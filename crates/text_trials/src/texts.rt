//! Texts of every shape: well-formed, with surrogates, and damaged.
use crate::show::show_text;
use std::io;

/// The first and the last code points of each width, and beside the surrogates.
static BOUNDS: [&[u8]; 13] = [
    b"",
    b"\x00",
    b"\x7F",
    b"\xC2\x80",
    b"\xDF\xBF",
    b"\xE0\xA0\x80",
    b"\xED\x9F\xBF",
    b"\xEE\x80\x80",
    b"\xEF\xBF\xBD",
    b"\xEF\xBF\xBF",
    b"\xF0\x90\x80\x80",
    b"\xF4\x8F\xBF\xBF",
    b"a\xC2\xA9\xE2\x82\xAC\xF0\x9F\x98\x80z",
];

/// Surrogates: alone, in pairs, and beside other code points.
static SURROGATES: [&[u8]; 14] = [
    b"\xED\xA0\x80",
    b"\xED\xAF\xBF",
    b"\xED\xB0\x80",
    b"\xED\xBF\xBF",
    b"\xED\xA0\x80\xED\xB0\x80",
    b"\xED\xAF\xBF\xED\xBF\xBF",
    b"\xED\xB0\x80\xED\xA0\x80",
    b"\xED\xA0\x80\xED\xA0\x80",
    b"\xED\xB0\x80\xED\xB0\x80",
    b"\xED\xA0\x80\xED\xA0\x80\xED\xB0\x80",
    b"\xED\xB0\x80\xED\xA0\x80\xED\xB0\x80",
    b"\xED\xA0\x80a\xED\xB0\x80",
    b"\xED\xA0\x80\xED\x9F\xBF",
    b"a\xED\xA0\x80z",
];

/// Surrogates that break off or go on with another byte.
static DAMAGED_SURROGATES: [&[u8]; 8] = [
    b"\xED",
    b"\xED\xA0",
    b"\xED\xA0a",
    b"\xED\xA0\xED\xA0\x80",
    b"\xED\xC0\x80",
    b"\xED\xED\xA0\x80",
    b"\xED\xA0\x80\x80",
    b"\xED\xA0\x80\xED\xB0",
];

/// Continuation bytes with no lead, and leads with no continuation byte.
static STRAY_BYTES: [&[u8]; 17] = [
    b"\x80",
    b"\xBF",
    b"a\x80",
    b"\xC2\x80\x80",
    b"\xC2a",
    b"\xC2\xC2\x80",
    b"\xC2\x7F",
    b"\xC2\xC0",
    b"\xE2a\x80",
    b"\xE2\x82a",
    b"\xE2\x82\xC0",
    b"\xE2\xC0\x80",
    b"\xF0a\x80\x80",
    b"\xF0\x9Fa\x80",
    b"\xF0\x9F\x98a",
    b"\xF0\x9F\xC0\x80",
    b"\xF0\x9F\x98\xC0",
];

/// Code points that break off after each of their bytes.
static CUT_SHORT: [&[u8]; 11] = [
    b"\xC2",
    b"\xDF",
    b"\xE0",
    b"\xE0\xA0",
    b"\xE2\x82",
    b"\xEF\xBF",
    b"\xF0",
    b"\xF0\x90",
    b"\xF0\x90\x80",
    b"\xF4\x8F\xBF",
    b"a\xE2\x82",
];

/// Code points in more bytes than they need.
static OVERLONG: [&[u8]; 7] = [
    b"\xC0\x80",
    b"\xC1\xBF",
    b"\xE0\x80\x80",
    b"\xE0\x9F\xBF",
    b"\xF0\x80\x80\x80",
    b"\xF0\x8F\xBF\xBF",
    b"\xF0\x8D\xA0\x80",
];

/// Numbers above the last code point, and bytes that lead no code point.
static TOO_LARGE: [&[u8]; 13] = [
    b"\xF4\x90\x80\x80",
    b"\xF4\xBF\xBF\xBF",
    b"\xF5\x80\x80\x80",
    b"\xF6\x80\x80\x80",
    b"\xF7\xBF\xBF\xBF",
    b"\xF8\x88\x80\x80\x80",
    b"\xF9\x80\x80\x80\x80",
    b"\xFA\x80\x80\x80\x80",
    b"\xFB\xBF\xBF\xBF\xBF",
    b"\xFC\x84\x80\x80\x80\x80",
    b"\xFD\xBF\xBF\xBF\xBF\xBF",
    b"\xFE",
    b"\xFF",
];

/// Shows each of the texts.
fn show_each(rt: HostRuntime, texts: &[&[u8]]) -> io::Result<()> {
    for text in texts {
        show_text(rt, text)?;
    }
    Ok(())
}

/// Shows all texts.
pub(crate) fn show_texts(rt: HostRuntime) -> io::Result<()> {
    show_each(rt, &BOUNDS)?;
    show_each(rt, &SURROGATES)?;
    show_each(rt, &DAMAGED_SURROGATES)?;
    show_each(rt, &STRAY_BYTES)?;
    show_each(rt, &CUT_SHORT)?;
    show_each(rt, &OVERLONG)?;
    show_each(rt, &TOO_LARGE)
}
