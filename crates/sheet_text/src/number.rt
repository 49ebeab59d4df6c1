//! Decimal numbers.

ghost use Rattle.std.specs.Prelude.{◌≡◌, ◌≤◌, length, map, true};
ghost use Rattle.std.specs.List.{list_all};
ghost use Rattle.std.specs.Char.{is_ascii_digit};
ghost use Rattle.std.specs.Int.Digits.{number_from_digits};
ghost use Rattle.sheet_text.specs.Text.{digit, is_number, number};

/// Maximum number of digits of a number.
pub const MOST_DIGITS: usize = 19;

pub(crate) fn are_digits(text: &[u8]) -> bool
    ensures digits { result ≡ list_all is_ascii_digit text.now }
{
    text.iter().all(|octet| octet.is_ascii_digit())
}

fn is_number(text: &[u8]) -> bool
    ensures number { result ≡ is_number text.now }
{
    if text.is_empty() || text.len() > MOST_DIGITS {
        return false;
    }
    if text.len() > 1 && text[0] == b'0' {
        return false;
    }
    are_digits(text)
}

fn value_of(digits: &[u8]) -> u64
    requires digits { list_all is_ascii_digit digits.now ≡ true }
    requires few { length digits.now ≤ MOST_DIGITS }
    ensures number { result ≡ number_from_digits 10 (map digit digits.now) }
{
    let mut value = 0;
    for digit in digits {
        value = value * 10 + u64::from(*digit - b'0');
    }
    value
}

/// Reads a number of 1 to `MOST_DIGITS` digits, without a needless leading zero.
pub fn read_number(text: &[u8]) -> Option<u64>
    ensures number { result ≡ number text.now }
{
    if is_number(text) {
        Some(value_of(text))
    } else {
        None
    }
}
