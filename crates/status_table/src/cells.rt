//! The cells of a line.

ghost use Rattle.std.specs.Prelude.{◌≡◌, ◌++◌, ◌<◌, ◌≤◌, OnOk, IfOk, string_bytes};
ghost use Rattle.status_table.specs.Cells.{amount, is_shown, is_visible, limit_text, percent, plain, right, scaled, shown_char, shown_text};

use server_status::Rate;
use std::alloc::{AllocError, Global};
use ucd_category::{GeneralCategory, GeneralCategoryGroup};

fn is_visible(kind: GeneralCategory) -> bool
    ensures visible { result ≡ is_visible kind }
{
    !GeneralCategoryGroup::Other.contains(kind) && !GeneralCategoryGroup::Separator.contains(kind)
}

/// Returns whether a screen shows a character: a printable one of ASCII, another letter, mark, number, sign of
/// punctuation or symbol.
fn is_shown(character: char) -> bool
    ensures shown { result ≡ is_shown character }
{
    matches!(character, ' '..='~') || is_visible(GeneralCategory::for_char(character))
}

/// Appends a character: as it is if it is shown and no backslash, otherwise its number.
fn push_shown(text: &mut String, character: char) -> Result<(), AllocError>
    ensures shown { OnOk result
        (string_bytes text.new ≡ string_bytes text.old ++ shown_char character) }
{
    if is_shown(character) && character != '\\' {
        text.push(character)
    } else {
        write!(text, "\\u{{{:x}}}", character as u32)
    }
}

/// A name that anybody may have chosen, as a screen shows it.
pub(crate) fn shown(alloc: Global, name: &str) -> Result<String, AllocError>
    ensures shown { IfOk result (λ text. string_bytes text ≡ shown_text name.now) }
{
    let mut text = String::new(alloc);
    for character in name.chars() {
        push_shown(&mut text, character)?;
    }
    Ok(text)
}

/// A character as a screen may show it: itself, or a question mark.
pub(crate) fn plain(character: char) -> char
    ensures plain { result ≡ plain character }
{
    if is_shown(character) { character } else { '?' }
}

pub(crate) fn push_word(line: &mut String, word: &str) -> Result<(), AllocError>
    ensures word { OnOk result (string_bytes line.new ≡ string_bytes line.old ++ word.now) }
{
    line.push_str(word)
}

/// Appends a number in a unit, with two decimals, rounded down.
fn push_scaled(line: &mut String, n: u64, unit: u64, letter: &str) -> Result<(), AllocError>
    requires unit { (0 < unit) × (unit ≤ 1000000000) }
    ensures appended { OnOk result
        (string_bytes line.new ≡ string_bytes line.old ++ scaled n unit letter.now) }
{
    let whole = n / unit;
    let hundredths = n % unit * 100 / unit;
    let (tens, ones) = (hundredths / 10, hundredths % 10);
    write!(line, "{whole}.{tens}{ones}{letter}")
}

/// Appends a number of octets, in thousands, millions or thousands of millions.
pub(crate) fn push_amount(line: &mut String, n: u64) -> Result<(), AllocError>
    ensures appended { OnOk result
        (string_bytes line.new ≡ string_bytes line.old ++ amount n) }
{
    if n < 1_000_000 {
        push_scaled(line, n, 1000, "K")
    } else if n < 1_000_000_000 {
        push_scaled(line, n, 1_000_000, "M")
    } else {
        push_scaled(line, n, 1_000_000_000, "G")
    }
}

pub(crate) fn push_limit(line: &mut String, rate: Rate) -> Result<(), AllocError>
    ensures appended { OnOk result
        (string_bytes line.new ≡ string_bytes line.old ++ limit_text rate) }
{
    if rate == 0 {
        line.push_str("-")
    } else {
        push_amount(line, rate)
    }
}

/// A part of a whole in per cent, rounded down, and at most 100; of nothing, 100.
pub(crate) fn percent(part: u64, whole: u128) -> u64
    ensures percent { result ≡ percent part whole }
{
    if whole == 0 {
        return 100;
    }
    (u128::from(part) * 100 / whole).min(100) as u64
}

/// Appends an amount at the right of a column of eight.
pub(crate) fn push_rate(alloc: Global, line: &mut String, rate: Rate) -> Result<(), AllocError>
    ensures appended { OnOk result
        (string_bytes line.new ≡ string_bytes line.old ++ right 8 (amount rate)) }
{
    let mut cell = String::new(alloc);
    push_amount(&mut cell, rate)?;
    write!(line, "{cell:>8}")
}

/// Appends a limit at the right of a column of eight.
pub(crate) fn push_bound(alloc: Global, line: &mut String, rate: Rate) -> Result<(), AllocError>
    ensures appended { OnOk result
        (string_bytes line.new ≡ string_bytes line.old ++ right 8 (limit_text rate)) }
{
    let mut cell = String::new(alloc);
    push_limit(&mut cell, rate)?;
    write!(line, "{cell:>8}")
}
