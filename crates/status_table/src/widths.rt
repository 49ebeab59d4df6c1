//! The widths of texts on a terminal, and their cuts.

ghost use Rattle.std.specs.Prelude.{◌≡◌, ◌+◌, ◌++◌, ◌≤◌, OnOk, IfOk, IsTrue, chars, drop, encode_utf8_all, length, map, replicate, string_bytes, take};
ghost use Rattle.status_table.specs.Cells.{is_printable, plain};
ghost use Rattle.status_table.specs.Widths.{columns, ending, front, left, line_front, tail, width};

use crate::cells::{plain, push_word};
use std::alloc::{AllocError, Global};
use unicode_width::UnicodeWidthChar;

/// Number of the columns that a character takes; none, if it is a control.
#[tactic(auto, using(crate::proofs::Texts::one_column))]
fn columns(character: char) -> usize
    ensures columns { result ≡ columns character }
    ensures one { IsTrue (is_printable character) → result ≡ 1 }
    ensures bound { result ≤ 3 }
{
    character.width().unwrap_or(0)
}

/// The characters of a text.
fn characters(alloc: Global, text: &str) -> Result<Vec<char>, AllocError>
    ensures characters { IfOk result (λ all. all.items ≡ chars text.now) }
{
    let mut all = Vec::new(alloc);
    for character in text.chars() {
        all.push(character)?;
    }
    Ok(all)
}

/// The characters of a text as a screen may show them.
fn plain_characters(alloc: Global, text: &str) -> Result<Vec<char>, AllocError>
    ensures characters { IfOk result (λ all. all.items ≡ map plain (chars text.now)) }
{
    let mut all = Vec::new(alloc);
    for character in text.chars() {
        all.push(plain(character))?;
    }
    Ok(all)
}

fn push_characters(text: &mut String, characters: &[char]) -> Result<(), AllocError>
    ensures appended { OnOk result
        (string_bytes text.new ≡ string_bytes text.old ++ encode_utf8_all characters.now) }
{
    for character in characters {
        text.push(*character)?;
    }
    Ok(())
}

fn push_blanks(text: &mut String, count: usize) -> Result<(), AllocError>
    ensures appended { OnOk result
        (string_bytes text.new ≡ string_bytes text.old ++ replicate count 32) }
{
    for _ in 0..count {
        text.push(' ')?;
    }
    Ok(())
}

/// Width of a text.
fn width(characters: &[char]) -> u128
    ensures width { result ≡ width characters.now }
{
    let mut total: u128 = 0;
    for character in characters {
        total += columns(*character) as u128;
    }
    total
}

/// Number of the characters of the longest front that is at most `space` wide, and of the columns that it leaves.
fn fitting(characters: &[char], space: usize) -> (usize, usize)
    ensures front { take result.0 characters.now ≡ front space characters.now }
    ensures bound { result.0 ≤ length characters.now }
    ensures rest { result.1 + width (front space characters.now) ≡ space }
{
    let mut left = space;
    for place in 0..characters.len() {
        let columns = columns(characters[place]);
        if left < columns {
            return (place, left);
        }
        left -= columns;
    }
    (characters.len(), left)
}

/// The place at which the longest end begins that is at most `space` wide, and that begins with no mark.
fn place_of_end(characters: &[char], space: usize) -> usize
    ensures end { drop result characters.now ≡ ending space characters.now }
    ensures bound { result ≤ length characters.now }
{
    let mut wide = width(characters);
    for place in 0..characters.len() {
        let columns = columns(characters[place]);
        if wide <= space as u128 && columns > 0 {
            return place;
        }
        wide -= columns as u128;
    }
    characters.len()
}

/// Appends a text at the left of a column, cut to its width but for a blank.
pub(crate) fn push_left(
    alloc: Global,
    line: &mut String,
    text: &str,
    size: usize,
) -> Result<(), AllocError>
    requires wide { 1 ≤ size }
    ensures appended { OnOk result
        (string_bytes line.new ≡ string_bytes line.old ++ left size text.now) }
{
    let all = characters(alloc, text)?;
    let (count, free) = fitting(&all, size - 1);
    push_characters(line, &all[..count])?;
    push_blanks(line, free + 1)
}

/// Appends the end of a text that is wider than a width, after three dots; otherwise the whole text.
pub(crate) fn push_tail(
    alloc: Global,
    line: &mut String,
    text: &str,
    size: usize,
) -> Result<(), AllocError>
    requires wide { 3 ≤ size }
    ensures appended { OnOk result
        (string_bytes line.new ≡ string_bytes line.old ++ tail size text.now) }
{
    let all = characters(alloc, text)?;
    if width(&all) <= size as u128 {
        return push_word(line, text);
    }
    let place = place_of_end(&all, size - 3);
    push_word(line, "...")?;
    push_characters(line, &all[place..])
}

/// Appends the part of a line that a screen of a number of columns has.
pub(crate) fn push_front(
    alloc: Global,
    screen: &mut String,
    line: &str,
    size: usize,
) -> Result<(), AllocError>
    ensures appended { OnOk result
        (string_bytes screen.new
        ≡ string_bytes screen.old ++ encode_utf8_all (line_front size line.now)) }
{
    let all = plain_characters(alloc, line)?;
    let (count, _) = fitting(&all, size);
    push_characters(screen, &all[..count])
}
