//! The statement of a line of a grants file.

ghost use Rattle.std.specs.Prelude.{◌≡◌, ◌∷◌, [], IfSome, None, option_map};
ghost use Rattle.sheet_text.specs.Text.{grant_of, grant_of_words};
ghost use Rattle.sheet_text.specs.LineViews.{ArePathTexts, grant_view};

use crate::cut::cut_at;
use crate::number::read_number;
use crate::path::read_path;

/// The statement of one line: octets for the want of a path, and the path of a node, if it names one.
#[derive(Clone, Copy)]
pub struct GrantsLine<'t> {
    pub path: &'t str,
    pub octets: u64,
    pub node: Option<&'t str>,
}

fn three_words<'t>(word: &[u8], place: &'t [u8], amount: &[u8]) -> Option<GrantsLine<'t>>
    ensures line { option_map grant_view result
        ≡ grant_of_words (word.now ∷ place.now ∷ amount.now ∷ []) }
    ensures texts { IfSome result ArePathTexts }
{
    if word != b"grant".as_slice() {
        return None;
    }
    let path = read_path(place)?;
    let octets = read_number(amount)?;
    Some(GrantsLine {
        path,
        octets,
        node: None,
    })
}

fn four_words<'t>(
    word: &[u8],
    place: &'t [u8],
    amount: &[u8],
    name: &'t [u8],
) -> Option<GrantsLine<'t>>
    ensures line { option_map grant_view result
        ≡ grant_of_words (word.now ∷ place.now ∷ amount.now ∷ name.now ∷ []) }
    ensures texts { IfSome result ArePathTexts }
{
    if word != b"grant".as_slice() {
        return None;
    }
    let path = read_path(place)?;
    let octets = read_number(amount)?;
    let node = read_path(name)?;
    Some(GrantsLine {
        path,
        octets,
        node: Some(node),
    })
}

/// Reads `grant PATH N` or `grant PATH N NODE`.
pub fn read_grant(line: &[u8]) -> Option<GrantsLine<'_>>
    ensures line { option_map grant_view result ≡ grant_of line.now }
    ensures texts { IfSome result ArePathTexts }
{
    let (word, rest) = cut_at(line, b' ');
    let (place, rest) = cut_at(rest?, b' ');
    let (amount, rest) = cut_at(rest?, b' ');
    let Some(rest) = rest else {
        return three_words(word, place, amount);
    };
    let (name, rest) = cut_at(rest, b' ');
    match rest {
        Some(_) => None,
        None => four_words(word, place, amount, name),
    }
}
