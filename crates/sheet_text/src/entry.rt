//! The statement of a line of a sheet.

ghost use Rattle.std.specs.Prelude.{◌≡◌, ◌∷◌, [], IfSome, option_map, Option, Some};
ghost use Rattle.sheet_text.specs.Paths.{IsPathText};
ghost use Rattle.sheet_text.specs.Text.{entry_of, entry_of_words, limit_kind, want_kind, number};
ghost use Rattle.sheet_text.specs.LineViews.{entry_view};

use crate::cut::cut_at;
use crate::number::read_number;
use crate::path::{read_named_path, read_path};
use limit_tree::NodeKind;

/// The statement of one line about a path. The root's text is empty, and any other's has a `/` before each name.
#[derive(Clone, Copy)]
pub struct SheetLine<'t> {
    pub path: &'t str,
    pub kind: NodeKind,
}

fn read_limit(text: &[u8]) -> Option<NodeKind>
    ensures kind { result ≡ limit_kind text.now }
{
    if text == b"-".as_slice() {
        return Some(NodeKind::Branch { limit: None });
    }
    let limit = read_number(text)?;
    Some(NodeKind::Branch { limit: Some(limit) })
}

fn read_want(want: &[u8], floor: Option<u64>) -> Option<NodeKind>
    ensures kind { result ≡ want_kind want.now floor }
{
    let want = read_number(want)?;
    let floor = floor?;
    Some(NodeKind::Leaf { want, floor })
}

fn three_words<'t>(word: &[u8], place: &'t [u8], amount: &[u8]) -> Option<SheetLine<'t>>
    ensures entry { option_map entry_view result
        ≡ entry_of_words (word.now ∷ place.now ∷ amount.now ∷ []) }
    ensures text { IfSome result (λ entry. IsPathText entry.path.now) }
{
    if word == b"limit".as_slice() {
        let path = read_path(place)?;
        let kind = read_limit(amount)?;
        return Some(SheetLine { path, kind });
    }
    if word == b"want".as_slice() {
        let path = read_named_path(place)?;
        let kind = read_want(amount, Some(0))?;
        return Some(SheetLine { path, kind });
    }
    None
}

fn four_words<'t>(
    word: &[u8],
    place: &'t [u8],
    amount: &[u8],
    floor: &[u8],
) -> Option<SheetLine<'t>>
    ensures entry { option_map entry_view result
        ≡ entry_of_words (word.now ∷ place.now ∷ amount.now ∷ floor.now ∷ []) }
    ensures text { IfSome result (λ entry. IsPathText entry.path.now) }
{
    if word != b"want".as_slice() {
        return None;
    }
    let path = read_named_path(place)?;
    let kind = read_want(amount, read_number(floor))?;
    Some(SheetLine { path, kind })
}

/// Reads `limit PATH N`, `limit PATH -`, `want PATH N` or `want PATH N FLOOR`.
pub fn read_entry(line: &[u8]) -> Option<SheetLine<'_>>
    ensures entry { option_map entry_view result ≡ entry_of line.now }
    ensures text { IfSome result (λ entry. IsPathText entry.path.now) }
{
    let (word, rest) = cut_at(line, b' ');
    let (place, rest) = cut_at(rest?, b' ');
    let (amount, rest) = cut_at(rest?, b' ');
    let Some(rest) = rest else {
        return three_words(word, place, amount);
    };
    let (floor, rest) = cut_at(rest, b' ');
    match rest {
        Some(_) => None,
        None => four_words(word, place, amount, floor),
    }
}
