//! Paths as a status shows them.

ghost use Rattle.std.specs.Prelude.{◌≡◌, IfOk, string_bytes};
ghost use Rattle.status_keeper.specs.Shown.{shown, shown_text};

use std::alloc::{AllocError, Global};

// A character of a path; `_` in place of a control character, since a status is also read on a terminal, and JSON leaves
// those above U+007F as they are.
fn shown(character: char) -> char
    ensures shown { result ≡ shown character }
{
    if character.is_control() {
        '_'
    } else {
        character
    }
}

/// A path without its control characters, as a transfer log has it.
pub(crate) fn shown_path(alloc: Global, path: &str) -> Result<String, AllocError>
    ensures shown { IfOk result (λ text. string_bytes text ≡ shown_text path.now) }
{
    let mut text = String::new(alloc);
    for character in path.chars() {
        text.push(shown(character))?;
    }
    Ok(text)
}
