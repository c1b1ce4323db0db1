//! Cases for each function but those that read one text.

/// Pairs of texts, to be compared by their loose readings.
pub static ORDERS: [(&[u8], &[u8]); 12] = [
    (b"", b""),
    (b"", b"a"),
    (b"ab", b"a"),
    (b"ab", b"aa"),
    (b"a\xED\xA0\x80", b"a\xED\xBF\xBF"),
    (b"\xED\xA0\x80", b"\xEF\xBF\xBD"),
    (b"\xED\xA0\x80", b"\xEF\xBF\xBC"),
    (b"\xED\xA0\x80", b"\xEF\xBF\xBE"),
    (b"\xED\xA0\x80", b"\xEE\x80\x80"),
    (b"\xED\x9F\xBF", b"\xED\xA0\x80"),
    (b"\xED\xA0\x80a", b"\xED\xB0\x80b"),
    (b"\xF0\x90\x80\x80", b"\xED\xA0\x80"),
];

/// Texts whose loose readings are written over so many bytes, from an offset on.
pub static WRITINGS: [(&[u8], usize, usize); 12] = [
    (b"", 0, 0),
    (b"", 4, 4),
    (b"", 4, 5),
    (b"ab", 4, 0),
    (b"ab", 4, 1),
    (b"ab", 4, 2),
    (b"ab", 4, 3),
    (b"ab", 4, usize::MAX),
    (b"\xED\xA0\x80", 3, 0),
    (b"\xED\xA0\x80", 2, 0),
    (b"a\xED\xBF\xBFz", 8, 2),
    (b"a\xED\xBF\xBFz", 8, 4),
];

/// Bytes, and the offset of a number: within them, across their end and past it.
pub static NUMBERS: [(&[u8], usize); 9] = [
    (b"\x01\x02\x03\x04\x05", 0),
    (b"\x01\x02\x03\x04\x05", 1),
    (b"\x01\x02\x03\x04\x05", 2),
    (b"\x01\x02\x03\x04\x05", 4),
    (b"\x01\x02\x03\x04\x05", 5),
    (b"\x01\x02\x03\x04\x05", usize::MAX),
    (b"\xFF\xFF\xFF\xFF", 0),
    (b"\xFF\xFF\xFF", 0),
    (b"", 0),
];

/// Bytes, and the offset and length of a stretch: within them, across their end and past it.
pub static PARTS: [(&[u8], u32, u32); 9] = [
    (b"abcde", 0, 5),
    (b"abcde", 1, 3),
    (b"abcde", 2, 0),
    (b"abcde", 2, 3),
    (b"abcde", 2, 4),
    (b"abcde", 4, 4294967295),
    (b"abcde", 5, 1),
    (b"abcde", 4294967295, 4294967295),
    (b"", 0, 1),
];

/// Texts and words.
pub static WORDS: [(&[u8], &[u8]); 6] = [
    (b"require", b"require"),
    (b"require", b"requires"),
    (b"requires", b"require"),
    (b"Require", b"require"),
    (b"", b"require"),
    (b"", b""),
];
