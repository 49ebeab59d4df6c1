//! The likely slip of a line that is no statement.

ghost use Rattle.std.specs.Prelude.{◌≡◌};
ghost use Rattle.sheet_text.specs.Hints.{begins_with_mark, has_tab, has_word, hint_of, is_amount_with_unit, is_empty, is_remark};

use crate::number::are_digits;

/// The likely slip in a line of a sheet or of a grants file that is no statement.
#[derive(Clone, Copy, Debug, PartialEq, Eq)]
pub enum Hint {
    /// The line begins with a byte order mark, U+FEFF in UTF-8.
    ByteOrderMark,
    /// The line has a tab.
    Tab,
    /// A word begins with `#`: a remark has its own line.
    Remark,
    /// A blank is next to another, or begins or ends the line.
    Blank,
    /// A word begins with a digit, and has an octet that is not one, such as `10M`.
    Unit,
}

fn begins_with_mark(line: &[u8]) -> bool
    ensures mark { result ≡ begins_with_mark line.now }
{
    matches!(line, [0xef, 0xbb, 0xbf, ..])
}

fn has_tab(line: &[u8]) -> bool
    ensures tab { result ≡ has_tab line.now }
{
    line.iter().any(|octet| *octet == b'\t')
}

fn is_remark(word: &[u8]) -> bool
    ensures remark { result ≡ is_remark word.now }
{
    matches!(word, [b'#', ..])
}

fn is_empty(word: &[u8]) -> bool
    ensures empty { result ≡ is_empty word.now }
{
    word.is_empty()
}

fn is_amount_with_unit(word: &[u8]) -> bool
    ensures unit { result ≡ is_amount_with_unit word.now }
{
    match word {
        [first, rest @ ..] => first.is_ascii_digit() && !are_digits(rest),
        _ => false,
    }
}

fn has_remark(line: &[u8]) -> bool
    ensures remark { result ≡ has_word is_remark line.now }
{
    line.split(|octet| *octet == b' ').any(is_remark)
}

fn has_empty_word(line: &[u8]) -> bool
    ensures empty { result ≡ has_word is_empty line.now }
{
    line.split(|octet| *octet == b' ').any(is_empty)
}

fn has_amount_with_unit(line: &[u8]) -> bool
    ensures unit { result ≡ has_word is_amount_with_unit line.now }
{
    line.split(|octet| *octet == b' ').any(is_amount_with_unit)
}

/// Returns the likely slip of a line that is no statement, the first of [`Hint`] that its octets show.
pub fn hint_of(line: &[u8]) -> Option<Hint>
    ensures hint { result ≡ hint_of line.now }
{
    if begins_with_mark(line) {
        Some(Hint::ByteOrderMark)
    } else if has_tab(line) {
        Some(Hint::Tab)
    } else if has_remark(line) {
        Some(Hint::Remark)
    } else if has_empty_word(line) {
        Some(Hint::Blank)
    } else if has_amount_with_unit(line) {
        Some(Hint::Unit)
    } else {
        None
    }
}
