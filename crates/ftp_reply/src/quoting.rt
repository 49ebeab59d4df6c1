//! Paths in replies.

ghost use Rattle.std.specs.Prelude.{◌≡◌, IfOk, encode_utf8};
ghost use Rattle.std.specs.List.{flat_map};
ghost use Rattle.ftp_terms.specs.LineText.{text_of};
ghost use Rattle.ftp_terms.specs.Lines.{IsLine};
ghost use Rattle.ftp_reply.specs.Quoting.{doubled, quoted};
ghost use Rattle.ftp_reply.specs.Written.{Appends};

use ftp_terms::LineText;
use std::alloc::{AllocError, Allocator};

/// The path in double quotes, with each double quote in it doubled (RFC 959 appendix II). Returns
/// `Err` if memory runs out.
pub fn quoted_path<A: Allocator>(alloc: A, path: &str) -> Result<LineText<A>, AllocError>
    requires line { IsLine path.now }
    ensures text { IfOk result (λ line. text_of line ≡ quoted path.now) }
{
    let mut text = String::new(alloc);
    text.push_str("\"")?;
    for character in path.chars() {
        push_doubled(&mut text, character)?;
    }
    text.push_str("\"")?;
    Ok(LineText::made(text))
}

/// Appends the character, a double quote twice.
fn push_doubled<A: Allocator>(text: &mut String<A>, character: char) -> Result<(), AllocError>
    ensures appended { Appends result text.old text.new (flat_map doubled (encode_utf8 character)) }
{
    if character == '"' {
        text.push_str("\"\"")?;
        return Ok(());
    }
    text.push(character)?;
    Ok(())
}
