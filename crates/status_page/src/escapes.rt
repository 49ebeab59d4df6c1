//! Label values in Prometheus' text format.

ghost use Rattle.std.specs.Prelude.{◌≡◌, ◌++◌, OnOk, string_bytes};
ghost use Rattle.status_page.specs.Escapes.{escape, escaped};

use std::alloc::AllocError;

fn push_escape(text: &mut String, character: char) -> Result<(), AllocError>
    ensures appended { OnOk result
        (string_bytes text.new ≡ string_bytes text.old ++ escape character) }
{
    match character {
        '\\' => text.push_str("\\\\"),
        '"' => text.push_str("\\\""),
        '\n' => text.push_str("\\n"),
        character => text.push(character),
    }
}

/// Appends a label value as it is written within quotation marks.
pub(crate) fn push_escaped(text: &mut String, value: &str) -> Result<(), AllocError>
    ensures appended { OnOk result
        (string_bytes text.new ≡ string_bytes text.old ++ escaped value.now) }
{
    for character in value.chars() {
        push_escape(text, character)?;
    }
    Ok(())
}
