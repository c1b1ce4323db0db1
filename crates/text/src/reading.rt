//! The readings of text that may hold surrogates: the loose reading, taken without a copy, and the plain reading.
ghost use Rattle.std.specs.Prelude.{◌≡◌, Decides};
ghost use Rattle.text.specs.Reading.{begun, loose, order, plain, seen, to_come, written_end, written};
ghost use Rattle.text.specs.Laws.{PlainByCodePoints, LooseByCodePoints, LooseOrderIsTotal};

use std::cmp::Ordering;

/// Whether bytes begin with a surrogate.
fn begins_surrogate(bytes: &[u8]) -> bool
    ensures { result ≡ begun bytes.now }
{
    matches!(bytes, [0xED, 0xA0..=0xFF, ..])
}

/// The bytes of a loose reading that are still to come.
#[derive(Clone, Copy, Debug)]
pub struct LooseBytes<'a> {
    /// The bytes of the text that are not read yet.
    rest: &'a [u8],
    /// What the first of them are read as, the end of a surrogate that is being replaced.
    pending: &'static [u8],
}

impl<'a> LooseBytes<'a> {
    /// The loose reading of a text, from its start.
    pub fn new(text: &'a [u8]) -> Self
        ensures { to_come result ≡ loose text.now }
    {
        LooseBytes {
            rest: text,
            pending: &[],
        }
    }
}

/// The next byte of the reading.
impl Iterator for LooseBytes<'_> {
    ghost use Rattle.std.specs.Iterator.{YieldsFirst, item_count};
    ghost use Rattle.text.specs.Reading.{to_come};

    type Item = u8;

    ghost next_gives = { YieldsFirst to_come };

    ghost remaining = { item_count to_come };

    fn next(&mut self) -> Option<u8> {
        let (byte, more) = self.rest.split_first()?;
        let (read, pending): (u8, &[u8]) = match self.pending {
            [first, others @ ..] => (*first, others),
            [] if begins_surrogate(self.rest) => (0xEF, b"\xBF\xBD"),
            [] => (*byte, &[]),
        };
        self.rest = more;
        self.pending = pending;
        Some(read)
    }
}

/// The order of two texts by the bytes of their loose readings.
#[tactic(auto, using(crate::proofs::Orders::loose_order_is_total))]
pub fn compare_loose(a: &[u8], b: &[u8]) -> Ordering
    ensures by_bytes { result ≡ order (loose a.now) (loose b.now) }
    ensures total { LooseOrderIsTotal }
{
    LooseBytes::new(a).cmp(LooseBytes::new(b))
}

/// Whether two texts have the same loose reading.
pub fn equal_loose(a: &[u8], b: &[u8]) -> bool
    ensures { Decides result (loose a.now ≡ loose b.now) }
{
    // No `==`: texts that differ in bytes may have one loose reading.
    compare_loose(a, b).is_eq()
}

/// The plain reading of a text: the text itself, or none where a surrogate occurs.
#[tactic(auto, using(crate::proofs::ByPoints::plain_by_code_points))]
pub fn plain_of(text: &[u8]) -> Option<&[u8]>
    ensures reading { seen result ≡ plain text.now }
    ensures by_points { PlainByCodePoints }
{
    (!text.windows(2).any(begins_surrogate)).then_some(text)
}

/// Writes the loose reading of a text over `out` from `at` on, and answers where it ends. Where it does not fit,
/// nothing is written.
#[tactic(auto, using(crate::proofs::ByPoints::loose_by_code_points))]
pub fn write_loose(text: &[u8], out: &mut [u8], at: usize) -> Option<usize>
    ensures end { result ≡ written_end text.now out.old at }
    ensures contents { out.new ≡ written text.now out.old at }
    ensures by_points { LooseByCodePoints }
{
    let end = at.checked_add(text.len()).filter(|end| *end <= out.len())?;
    // By number: an `iter_mut().zip(..)` was tried, and after an adapter of `iter_mut` nothing is known of the values;
    // without one the reading would be asked by hand.
    for (i, byte) in (at..end).zip(LooseBytes::new(text)) {
        out[i] = byte;
    }
    Some(end)
}
