//! Texts within XML.

ghost use Rattle.std.specs.Prelude.{◌≡◌, ◌++◌, OnOk, string_bytes};
ghost use Rattle.sheet_commands.specs.Escapes.{allowed, escaped, escaped_character};

use std::alloc::{AllocError, Allocator};

/// A character that a text of XML 1.0 may have; U+FFFD in place of a control character, U+FFFE or U+FFFF.
fn allowed(character: char) -> char
    ensures allowed { result ≡ allowed character }
{
    if character.is_control() || character == '\u{fffe}' || character == '\u{ffff}' {
        '\u{fffd}'
    } else {
        character
    }
}

fn push_character<A: Allocator>(text: &mut String<A>, character: char) -> Result<(), AllocError>
    ensures appended { OnOk result
        (string_bytes text.new ≡ string_bytes text.old ++ escaped_character character) }
{
    match character {
        '&' => text.push_str("&amp;"),
        '<' => text.push_str("&lt;"),
        '>' => text.push_str("&gt;"),
        '"' => text.push_str("&quot;"),
        _ => text.push(allowed(character)),
    }
}

/// Appends a text as the content of an element or of an attribute in double quotes: `&`, `<`, `>` and `"` as references,
/// and U+FFFD in place of each character that XML 1.0 does not allow and of each other control character.
pub fn push_escaped<A: Allocator>(text: &mut String<A>, plain: &str) -> Result<(), AllocError>
    ensures appended { OnOk result
        (string_bytes text.new ≡ string_bytes text.old ++ escaped plain.now) }
{
    for character in plain.chars() {
        push_character(text, character)?;
    }
    Ok(())
}
