//! Words of a line.

ghost use Rattle.std.specs.Prelude.{◌≡◌, ◌<◌, ◌==◌, ◌∷◌, [], IfSome, MatchOption, false, length, slice_index, true};
ghost use Rattle.std.specs.List.{after_first, before_first, list_all, position};
ghost use Rattle.ftp_wire.specs.Arguments.{parts_at};
ghost use Rattle.ftp_wire.specs.Words.{is_blank, is_printed, is_space, is_text, same_letters};

/// Returns whether two texts are equal, ignoring the case of ASCII letters.
pub(crate) fn same_letters(a: &[u8], b: &[u8]) -> bool
    ensures same { result ≡ same_letters a.now b.now }
{
    a.eq_ignore_ascii_case(b)
}

/// Returns whether there are only spaces.
pub(crate) fn is_blank(octets: &[u8]) -> bool
    ensures blank { result ≡ is_blank octets.now }
{
    octets.iter().all(|octet| *octet == b' ')
}

/// The index of the first octet of this value.
pub(crate) fn find_octet(octets: &[u8], wanted: u8) -> Option<usize>
    ensures first { result ≡ position (λ octet. octet == wanted) octets.now }
    ensures found { IfSome result
        (λ at. (at < length octets.now) × (slice_index octets.now at ≡ wanted)) }
{
    octets.iter().position(|octet| *octet == wanted)
}

/// The octets before the first space, and those after it.
pub(crate) fn split_word(octets: &[u8]) -> (&[u8], &[u8])
    ensures word { result.0.now ≡ before_first is_space octets.now }
    ensures rest { result.1.now ≡ after_first is_space octets.now }
{
    match find_octet(octets, b' ') {
        Some(at) => (&octets[..at], &octets[at + 1..]),
        None => (octets, &[]),
    }
}

/// The part before the first octet of this value, and what follows that octet.
pub(crate) fn split_part(octets: &[u8], wanted: u8) -> Option<(&[u8], &[u8])>
    ensures parts { MatchOption result (parts_at wanted octets.now ≡ octets.now ∷ [])
        (λ part. parts_at wanted octets.now ≡ part.0.now ∷ parts_at wanted part.1.now) }
    ensures shorter { IfSome result (λ part. length part.1.now < length octets.now) }
{
    match find_octet(octets, wanted) {
        Some(at) => Some((&octets[..at], &octets[at + 1..])),
        None => None,
    }
}

fn is_printed(octets: &[u8]) -> bool
    ensures printed { result ≡ list_all is_printed octets.now }
{
    octets.iter().all(|octet| *octet >= 32 && *octet != 127)
}

/// The octets as a text, if they are UTF-8 without control characters.
pub(crate) fn text_of(octets: &[u8]) -> Option<&str>
    ensures text { MatchOption result (is_text octets.now ≡ false)
        (λ text. (is_text octets.now ≡ true) × (text.now ≡ octets.now)) }
{
    if !is_printed(octets) {
        return None;
    }
    match std::str::from_utf8(octets) {
        Ok(text) => Some(text),
        Err(_) => None,
    }
}
