//! A limit in words.

ghost use Rattle.std.specs.Prelude.{◌≡◌, ◌++◌, IfOk, OnOk, option_map, string_bytes};
ghost use Rattle.machine_parts.specs.LimitWords.{escaped, escaped_character, key_of, limit_text, quoted, with_name};

use crate::known::Known;
use line_rates::{Name, Way};
use std::alloc::{AllocError, Global};

// The key of a rate of a way.
fn key_of(way: Way) -> &'static str
    ensures key { result.now ≡ key_of way }
{
    match way {
        Way::Down => "down_rate",
        Way::Up => "up_rate",
    }
}

// Appends a character of a name.
fn push_character(text: &mut String, character: char) -> Result<(), AllocError>
    ensures appended { OnOk result
        (string_bytes text.new ≡ string_bytes text.old ++ escaped_character character) }
{
    match character {
        '"' => text.push_str("\\\""),
        '\\' => text.push_str("\\\\"),
        character if character.is_control() => text.push('?'),
        character => text.push(character),
    }
}

// Appends a name, as it is between quotation marks.
fn push_escaped(text: &mut String, name: &str) -> Result<(), AllocError>
    ensures appended { OnOk result
        (string_bytes text.new ≡ string_bytes text.old ++ escaped name.now) }
{
    for character in name.chars() {
        push_character(text, character)?;
    }
    Ok(())
}

// Appends a name in quotation marks.
fn push_quoted(text: &mut String, name: &str) -> Result<(), AllocError>
    ensures appended { OnOk result
        (string_bytes text.new ≡ string_bytes text.old ++ quoted name.now) }
{
    text.push('"')?;
    push_escaped(text, name)?;
    text.push('"')
}

// Words with the name of whom a limit is; none if nobody is known.
fn with_name(text: String, name: Option<&str>) -> Result<Option<String>, AllocError>
    ensures named { IfOk result (λ named. option_map string_bytes named
        ≡ with_name (string_bytes text) (option_map (λ name. name.now) name.entry)) }
{
    let Some(name) = name else {
        return Ok(None);
    };
    let mut text = text;
    push_quoted(&mut text, name)?;
    Ok(Some(text))
}

/// A limit in words: its key, and whose it is. None if nobody is known by the number. `Err` is lack of memory.
pub fn limit_words(alloc: Global, known: &Known, name: Name) -> Result<Option<String>, AllocError>
    ensures words { IfOk result
        (λ words. option_map string_bytes words ≡ limit_text known.now name) }
{
    match name {
        Name::Server => Ok(Some(String::from_str(alloc, "`rate` of the server")?)),
        Name::Direction(way) => {
            let text = format!(in alloc; "`{}` of the server", key_of(way))?;
            Ok(Some(text))
        }
        Name::Group(way, group) => {
            let text = format!(in alloc; "`{}` of the group ", key_of(way))?;
            with_name(text, known.group(group))
        }
        Name::User(way, user) => {
            let text = format!(in alloc; "`{}` of the user ", key_of(way))?;
            with_name(text, known.user(user))
        }
        Name::Session(way, user, _) => {
            let text = format!(in alloc; "`session_{}` of the user ", key_of(way))?;
            with_name(text, known.user(user))
        }
    }
}
