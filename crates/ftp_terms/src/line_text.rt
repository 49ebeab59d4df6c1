//! One-line texts.

ghost use Rattle.std.specs.Prelude.{◌≡◌, ◌++◌, IfOk};
ghost use Rattle.std.specs.Fmt.{decimal};
ghost use Rattle.std.specs.Cow.{cow_str_bytes};
ghost use Rattle.std.specs.String.{string_bytes};
ghost use Rattle.ftp_terms.specs.Lines.{IsLine, is_line};

use std::alloc::{AllocError, Allocator, Global};
use std::borrow::CowStr;

/// Returns whether the text is on one line: it contains no CR and no LF.
pub fn is_line_text(text: &str) -> bool
    ensures line { result ≡ is_line text.now }
{
    text.bytes().all(|octet| octet != b'\r' && octet != b'\n')
}

/// A text without CR and LF. A fixed one needs no memory.
#[derive(Drop)]
pub struct LineText<A: Allocator = Global> {
    text: CowStr<'static, A>,
    pub ghost one_line: { IsLine (cow_str_bytes text) },
}

impl<A: Allocator> LineText<A> {
    ghost use Rattle.ftp_terms.specs.LineText.{text_of};

    /// A text of the program itself, without allocation. The text must pass [`is_line_text`].
    pub fn fixed(text: &'static str) -> LineText<A>
        requires line { IsLine text.now }
        ensures text { text_of result ≡ text.now }
    {
        LineText {
            text: CowStr::Borrowed(text),
        }
    }

    /// A text made at run time. The text must pass [`is_line_text`].
    pub fn made(text: String<A>) -> LineText<A>
        requires line { IsLine (string_bytes text) }
        ensures text { text_of result ≡ string_bytes text }
    {
        LineText {
            text: CowStr::Owned(text),
        }
    }

    /// A number in decimal digits between two texts. Returns `Err` if memory runs out.
    pub fn with_number(
        alloc: A,
        before: &str,
        number: u64,
        after: &str,
    ) -> Result<LineText<A>, AllocError>
        requires before { IsLine before.now }
        requires after { IsLine after.now }
        ensures text { IfOk result
            (λ line. text_of line ≡ before.now ++ decimal number ++ after.now) }
    {
        let text = format!(in alloc; "{before}{number}{after}")?;
        Ok(LineText::made(text))
    }

    /// Three texts, concatenated. Returns `Err` if memory runs out.
    pub fn joined(
        alloc: A,
        before: &str,
        middle: &str,
        after: &str,
    ) -> Result<LineText<A>, AllocError>
        requires before { IsLine before.now }
        requires middle { IsLine middle.now }
        requires after { IsLine after.now }
        ensures text { IfOk result (λ line. text_of line ≡ before.now ++ middle.now ++ after.now) }
    {
        let text = format!(in alloc; "{before}{middle}{after}")?;
        Ok(LineText::made(text))
    }

    /// The text.
    pub fn as_str(&self) -> &str
        ensures text { result.now ≡ text_of self.now }
        ensures line { IsLine result.now }
    {
        self.text.as_str()
    }
}
