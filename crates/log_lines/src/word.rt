//! The words of a line, between single blanks.

ghost use Rattle.std.specs.Prelude.{◌≡◌, ◌<◌, ◌∷◌, [], List, MatchBool, MatchOption};
ghost use Rattle.log_lines.specs.Words.{Octets, parts, words_left};

/// Cuts a text at the first `mark`: returns the part before it, and the part after it, if there is one.
pub(crate) fn cut_at(text: &str, mark: char) -> (&str, Option<&str>)
    requires ascii { mark < 128 }
    ensures parts { parts mark text.now ≡ result.0.now ∷ words_left mark result.1 }
{
    match text.split_once(mark) {
        Some((first, rest)) => (first, Some(rest)),
        None => (text, None),
    }
}

/// Returns whether nothing is left of a text.
pub(crate) fn ends(rest: Option<&str>, mark: char) -> bool
    ensures ends { MatchBool result (words_left mark rest.entry ≡ [])
        ((first : Octets) × (more : List Octets) × (words_left mark rest.entry ≡ first ∷ more)) }
{
    match rest {
        Some(_) => false,
        None => true,
    }
}

/// The next word of those that are left, and those after it; `None` if none is left.
pub(crate) fn next_word(rest: Option<&str>) -> Option<(&str, Option<&str>)>
    ensures word { MatchOption result (words_left 32 rest.entry ≡ [])
        (λ x. words_left 32 rest.entry ≡ x.0.now ∷ words_left 32 x.1) }
{
    match rest {
        Some(text) => Some(cut_at(text, ' ')),
        None => None,
    }
}
