//! Texts made of parts.

ghost use Rattle.std.specs.Prelude.{◌≡◌, ◌++◌, OnOk, string_bytes};
ghost use Rattle.std.specs.List.{flat_map};
ghost use Rattle.sheet_commands.specs.Parts.{part_text};

use crate::escape::push_escaped;
use std::alloc::{AllocError, Allocator};

/// A part of a text.
#[derive(Clone, Copy)]
pub(crate) enum Part<'a> {
    /// A text as it is.
    Text(&'a str),
    /// A number, in decimal.
    Number(u128),
    /// A path, escaped.
    Path(&'a str),
}

fn push_part<A: Allocator>(text: &mut String<A>, part: &Part<'_>) -> Result<(), AllocError>
    ensures appended { OnOk result
        (string_bytes text.new ≡ string_bytes text.old ++ part_text part.now) }
{
    match part {
        Part::Text(plain) => text.push_str(plain),
        Part::Number(number) => write!(text, "{number}"),
        Part::Path(path) => push_escaped(text, path),
    }
}

/// Appends parts, one after another.
pub(crate) fn push_parts<A: Allocator>(
    text: &mut String<A>,
    parts: &[Part<'_>],
) -> Result<(), AllocError>
    ensures appended { OnOk result
        (string_bytes text.new ≡ string_bytes text.old ++ flat_map part_text parts.now) }
{
    for part in parts {
        push_part(text, part)?;
    }
    Ok(())
}
