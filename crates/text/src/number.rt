//! Numbers in little-endian order.
ghost use Rattle.std.specs.Prelude.{◌≡◌};
ghost use Rattle.text.specs.Number.{le32};

/// The little-endian number of the four bytes from `at` on. Bytes past the end count as 0.
// By index, as a pattern on the bytes from `at` on takes half as long again for each number.
pub fn read_le32(bytes: &[u8], at: usize) -> u32
    ensures { result ≡ le32 bytes.now at }
{
    if 4 <= bytes.len() && at <= bytes.len() - 4 {
        return u32::from_le_bytes([bytes[at], bytes[at + 1], bytes[at + 2], bytes[at + 3]]);
    }
    // Zeros for the bytes past the end are promised.
    let rest = bytes.get(at..).unwrap_or_default();
    let byte = |i: usize| rest.get(i).copied().unwrap_or_default();
    u32::from_le_bytes([byte(0), byte(1), byte(2), 0])
}
