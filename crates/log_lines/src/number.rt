//! Numbers as they are written: without a sign, and without a needless leading zero.

ghost use Rattle.std.specs.Prelude.{◌≡◌, ◌<◌, IfSome};
ghost use Rattle.std.specs.Char.{is_ascii_digit};
ghost use Rattle.std.specs.List.{list_all};
ghost use Rattle.log_lines.specs.Numbers.{four_of, is_numeral, number_of, two_of};

fn are_digits(word: &[u8]) -> bool
    ensures digits { result ≡ list_all is_ascii_digit word.now }
{
    word.iter().all(|octet| octet.is_ascii_digit())
}

fn is_numeral(word: &[u8]) -> bool
    ensures numeral { result ≡ is_numeral word.now }
{
    if word.is_empty() {
        return false;
    }
    if word.len() > 1 && word[0] == b'0' {
        return false;
    }
    are_digits(word)
}

/// Reads a number below 2^64.
pub(crate) fn read_number(word: &str) -> Option<u64>
    ensures number { result ≡ number_of word.now }
{
    if is_numeral(word.as_bytes()) {
        word.parse().ok()
    } else {
        None
    }
}

/// Reads a number of two digits.
pub(crate) fn read_two(word: &[u8]) -> Option<u8>
    ensures number { result ≡ two_of word.now }
    ensures fits { IfSome result (λ n. n < 100) }
{
    match word {
        [ten, one] if ten.is_ascii_digit() && one.is_ascii_digit() => {
            Some((*ten - b'0') * 10 + (*one - b'0'))
        }
        _ => None,
    }
}

/// Reads a number of four digits.
pub(crate) fn read_four(word: &[u8]) -> Option<u16>
    ensures number { result ≡ four_of word.now }
    ensures fits { IfSome result (λ n. n < 10000) }
{
    let [first, second, third, fourth] = word else {
        return None;
    };
    let front = read_two(&[*first, *second])?;
    let back = read_two(&[*third, *fourth])?;
    Some(u16::from(front) * 100 + u16::from(back))
}
