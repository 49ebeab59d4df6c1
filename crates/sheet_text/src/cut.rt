//! Cutting a text into parts and lines.

ghost use Rattle.std.specs.Prelude.{◌≡◌, ◌<◌, ◌∷◌, length, IfSome};
ghost use Rattle.std.specs.Option.{option_copied};
ghost use Rattle.std.specs.Str.Lines.{lines, strip_carriage_return};
ghost use Rattle.sheet_text.specs.Paths.{parts, parts_behind};

/// Cuts a text at the first octet `mark`: returns the part before it, and the part after it, if there is one.
pub fn cut_at(text: &[u8], mark: u8) -> (&[u8], Option<&[u8]>)
    ensures parts { parts mark text.now
        ≡ result.0.now ∷ parts_behind mark (option_copied result.1) }
    ensures shorter { IfSome (option_copied result.1) (λ rest. length rest < length text.now) }
{
    for (at, octet) in text.iter().enumerate() {
        if *octet == mark {
            return (&text[..at], Some(&text[at + 1..]));
        }
    }
    (text, None)
}

fn without_cr(line: &[u8]) -> &[u8]
    ensures line { result.now ≡ strip_carriage_return line.now }
{
    match line {
        [front @ .., b'\r'] => front,
        _ => line,
    }
}

/// Cuts a text after its first line: returns that line without its end, and the rest.
///
/// A line ends with LF or CR LF. The last may lack its end, and then a CR belongs to the line.
pub fn cut_line(text: &[u8]) -> (&[u8], &[u8])
    requires some { 0 < length text.now }
    ensures lines { lines text.now ≡ result.0.now ∷ lines result.1.now }
    ensures shorter { length result.1.now < length text.now }
{
    let (line, behind) = cut_at(text, b'\n');
    match behind {
        Some(rest) => (without_cr(line), rest),
        None => (line, &text[text.len()..]),
    }
}
