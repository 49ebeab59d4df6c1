//! Names within a line of fields.

ghost use Rattle.std.specs.Prelude.{◌≡◌, ◌++◌, OnOk, encode_utf8, string_bytes};
ghost use Rattle.transfer_log.specs.Names.{field_text, is_format, plain, plain_text};

use std::alloc::AllocError;

/// Returns whether a character shows nothing itself, and changes how others are shown: those that turn the direction of a
/// text, those that join or part its words, and marks of no width (of Unicode's format characters all below U+10000).
fn is_format(character: char) -> bool
    ensures format { result ≡ is_format character }
{
    matches!(
        character,
        '\u{ad}'
            | '\u{600}'..='\u{605}'
            | '\u{61c}'
            | '\u{6dd}'
            | '\u{70f}'
            | '\u{890}'..='\u{891}'
            | '\u{8e2}'
            | '\u{180e}'
            | '\u{200b}'..='\u{200f}'
            | '\u{202a}'..='\u{202e}'
            | '\u{2060}'..='\u{206f}'
            | '\u{feff}'
            | '\u{fff9}'..='\u{fffb}'
    )
}

/// A character of a name; `_` in place of a blank, of a control character and of a format character.
pub fn plain(character: char) -> char
    ensures plain { result ≡ plain character }
{
    if character.is_whitespace() || character.is_control() || is_format(character) {
        '_'
    } else {
        character
    }
}

fn push_plain(line: &mut String, character: char) -> Result<(), AllocError>
    ensures appended { OnOk result
        (string_bytes line.new ≡ string_bytes line.old ++ encode_utf8 (plain character)) }
{
    line.push(plain(character))
}

// Appends the characters of a name, each a plain one.
fn push_text(line: &mut String, name: &str) -> Result<(), AllocError>
    ensures appended { OnOk result
        (string_bytes line.new ≡ string_bytes line.old ++ plain_text name.now) }
{
    for character in name.chars() {
        push_plain(line, character)?;
    }
    Ok(())
}

/// Appends a name as one field: plain, and `_` if it is empty.
pub(crate) fn push_field(line: &mut String, name: &str) -> Result<(), AllocError>
    ensures appended { OnOk result
        (string_bytes line.new ≡ string_bytes line.old ++ field_text name.now) }
{
    if name.is_empty() {
        line.push('_')
    } else {
        push_text(line, name)
    }
}
