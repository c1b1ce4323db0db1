//! Code points, and the tests for UTF-8 and WTF-8.
ghost use Rattle.std.specs.Prelude.{◌≡◌, ◌+◌, ◌*◌, ◌%◌, ◌<◌, ◌^◌, [], ◌∷◌, IsUtf8, Decides, MatchOption};
ghost use Rattle.std.specs.Int.{IsInRange};
ghost use Rattle.text.specs.Laws.{surrogate};
ghost use Rattle.text.specs.Points.{Leads, OnePoint, Wtf8};

/// Bytes with which no code point begins.
#[derive(Drop)]
struct Malformed;

/// Whether a byte may stand after the first one of a code point.
fn goes_on(byte: u8) -> bool
    ensures { Decides result (IsInRange 0x80 0xBF byte) }
{
    matches!(byte, 0x80..=0xBF)
}

/// Whether two bytes encode a code point.
fn two_bytes(a: u8, b: u8) -> bool
    ensures { Decides result (OnePoint (a ∷ b ∷ [])) }
{
    matches!(a, 0xC2..=0xDF) && goes_on(b)
}

/// Whether three bytes encode a code point: from E0 A0 on, two bytes are too few.
fn three_bytes(a: u8, b: u8, c: u8) -> bool
    ensures { Decides result (OnePoint (a ∷ b ∷ c ∷ [])) }
{
    matches!(u16::from_be_bytes([a, b]), 0xE0A0..=0xEFBF) && goes_on(b) && goes_on(c)
}

/// Whether four bytes encode a code point: from F0 90 on, three bytes are too few, and F4 8F begins the last ones.
fn four_bytes(a: u8, b: u8, c: u8, d: u8) -> bool
    ensures { Decides result (OnePoint (a ∷ b ∷ c ∷ d ∷ [])) }
{
    matches!(u16::from_be_bytes([a, b]), 0xF090..=0xF48F) && goes_on(b) && goes_on(c) && goes_on(d)
}

/// The number `start`, with the six low bits of a byte after it.
fn six_more(start: u32, byte: u8) -> u32
    requires { start < 2 ^ 20 }
    ensures { result ≡ start * 64 + byte % 64 }
{
    start * 64 + u32::from(byte % 64)
}

/// The code point that bytes begin with, and the bytes after it. Where none begins an error comes, and nothing is left.
#[inline]
fn split_point(bytes: &[u8]) -> Option<(Result<u32, Malformed>, &[u8])>
    ensures { MatchOption result (bytes.now ≡ []) (λ r. Leads bytes.now (Some r.0) r.1.now) }
{
    // A guard for each width: with the ranges inside these patterns the proof splits into some sixty ways.
    match bytes {
        [] => None,
        [a, rest @ ..] if *a < 0x80 => Some((Ok(u32::from(*a)), rest)),
        [a, b, rest @ ..] if two_bytes(*a, *b) => {
            Some((Ok(six_more(u32::from(*a % 32), *b)), rest))
        }
        [a, b, c, rest @ ..] if three_bytes(*a, *b, *c) => {
            Some((Ok(six_more(six_more(u32::from(*a % 16), *b), *c)), rest))
        }
        [a, b, c, d, rest @ ..] if four_bytes(*a, *b, *c, *d) => {
            let point = six_more(six_more(six_more(u32::from(*a % 8), *b), *c), *d);
            Some((Ok(point), rest))
        }
        _ => Some((Err(Malformed), &[])),
    }
}

/// The code points that bytes encode, one after the other. Where none begins an error comes last.
#[derive(Drop)]
struct CodePoints<'a> {
    rest: &'a [u8],
}

/// The next code point, or an error where none begins.
impl Iterator for CodePoints<'_> {
    ghost use Rattle.std.specs.Iterator.{item_count};
    ghost use Rattle.text.specs.Points.{Leads};

    type Item = Result<u32, Malformed>;

    ghost next_gives = { λ before result after. Leads before.rest.now result after.rest.now };

    ghost remaining = { item_count (λ s. s.rest.now) };

    #[inline]
    #[tactic(auto, using(crate::proofs::Wellformed::fewer))]
    fn next(&mut self) -> Option<Result<u32, Malformed>> {
        let (point, rest) = split_point(self.rest)?;
        self.rest = rest;
        Some(point)
    }
}

/// Whether a code point is a surrogate.
fn is_surrogate(point: u32) -> bool
    ensures { result ≡ surrogate point }
{
    matches!(point, 0xD800..=0xDFFF)
}

/// Whether the bytes are UTF-8.
pub fn is_utf8(bytes: &[u8]) -> bool
    ensures { Decides result (IsUtf8 bytes.now) }
{
    // Most texts are ASCII, and the library sees that a word at a time.
    if bytes.is_ascii() {
        return true;
    }
    for point in (CodePoints { rest: bytes }) {
        match point {
            Ok(point) if !is_surrogate(point) => {}
            _ => return false,
        }
    }
    true
}

/// Whether the bytes are well-formed WTF-8.
pub fn is_wtf8(bytes: &[u8]) -> bool
    ensures { Decides result (Wtf8 bytes.now) }
{
    if bytes.is_ascii() {
        return true;
    }
    let mut after_high = false;
    for point in (CodePoints { rest: bytes }) {
        after_high = match point {
            Ok(0xDC00..=0xDFFF) if after_high => return false,
            Ok(0xD800..=0xDBFF) => true,
            Ok(_) => false,
            Err(Malformed) => return false,
        };
    }
    true
}
