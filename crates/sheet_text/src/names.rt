//! The names in the text of a path.

ghost use Rattle.std.specs.Prelude.{◌≡◌, ◌<◌, ◌^◌, ◌≤◌, ◌==◌, ◌∷◌, [], length, count_by, drop, slice_index, take};
ghost use Rattle.sheet_text.specs.Paths.{names_of, parts};

/// Number of octets before the first `/` of a text, or of all octets if it has none.
pub fn name_len(text: &[u8]) -> usize
    ensures name { parts 47 text.now ≡ take result text.now ∷ names_of (drop result text.now) }
    ensures alone { parts 47 (take result text.now) ≡ take result text.now ∷ [] }
    ensures within { result ≤ length text.now }
    ensures slash { result < length text.now → slice_index text.now result ≡ 47 }
{
    for (at, octet) in text.iter().enumerate() {
        if *octet == b'/' {
            return at;
        }
    }
    text.len()
}

/// Number of `/` in a text.
pub(crate) fn count_slashes(text: &[u8]) -> usize
    ensures count { result ≡ count_by (λ octet. octet == 47) text.now }
    ensures most { result < 2 ^ 63 }
{
    text.iter().filter(|octet| **octet == b'/').count()
}
