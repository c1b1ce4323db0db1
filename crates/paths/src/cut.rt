//! The last segment of a text.
ghost use Rattle.std.specs.Prelude.{◌≡◌, ◌≢◌, ℕ, ◌-◌, ◌<◌, ◌≤◌, ◌∷◌, length, reverse, slice_index};
ghost use Rattle.paths.specs.Behind.{behind};
ghost use Rattle.paths.specs.Segments.{segments};

/// Where the last segment of a text begins.
fn last_start(text: &[u8]) -> usize
    ensures within { result ≤ length text.now }
    ensures no_slash { (k : ℕ) → result ≤ k → k < length text.now → slice_index text.now k ≢ 47 }
    ensures slash { 0 < result → slice_index text.now (result - 1) ≡ 47 }
{
    let mut start = text.len();
    while start > 0 && text[start - 1] != b'/' {
        start -= 1;
    }
    start
}

/// The last segment of a text, and the text before its slash.
pub(crate) fn cut_last(text: &[u8]) -> (&[u8], Option<&[u8]>)
    ensures { reverse (segments text.now) ≡ result.0.now ∷ behind result.1 }
{
    let start = last_start(text);
    let last = &text[start..];
    if start == 0 {
        (last, None)
    } else {
        (last, Some(&text[..start - 1]))
    }
}
