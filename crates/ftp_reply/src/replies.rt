//! Replies.

ghost use Rattle.std.specs.Prelude.{◌≡◌, map, OnErr};
ghost use Rattle.std.specs.List.{flat_map};
ghost use Rattle.ftp_terms.specs.LineText.{text_of};
ghost use Rattle.ftp_reply.specs.Replies.{SeveralLines, begins_with_digit, coded_line, inner_line, reply_text};
ghost use Rattle.ftp_reply.specs.Written.{Adds, KeepsFront};

use crate::codes::ReplyCode;
use ftp_terms::LineText;
use std::alloc::{AllocError, Allocator, Global};
use std::marker::Model;

/// A reply to a command (RFC 959, section 4.2): a code with one line of text, or with several.
#[derive(Drop)]
pub struct Reply<A: Allocator = Global> {
    code: ReplyCode,
    lines: Lines<A>,
}

#[derive(Drop)]
enum Lines<A: Allocator> {
    One(LineText<A>),
    Several(LineText<A>, Vec<LineText<A>, A>, LineText<A>),
}

impl<A: Allocator> Model for Reply<A> {
    ghost use Rattle.ftp_reply.specs.Replies.{IsReply, ReplyForm};
    ghost use Rattle.ftp_reply.specs.ReplyView.{form_of};

    ghost Value = { ReplyForm };

    ghost view = { λ reply. form_of reply.code reply.lines };

    ghost invariant = { λ reply. IsReply (form_of reply.code reply.lines) };
}

impl<A: Allocator> Reply<A> {
    ghost use Rattle.ftp_reply.specs.Replies.{IsReply, OneLine, SeveralLines};

    /// A reply of one line. With a fixed text it needs no memory.
    pub fn one_line(code: ReplyCode, text: LineText<A>) -> Reply<A>
        ensures form { result ≡ OneLine code.number (text_of text) }
    {
        Reply {
            code,
            lines: Lines::One(text),
        }
    }

    /// A reply of several lines: the first, the inner ones, and the last.
    pub fn several_lines(
        code: ReplyCode,
        first: LineText<A>,
        inner: Vec<LineText<A>, A>,
        last: LineText<A>,
    ) -> Reply<A>
        ensures form { result
            ≡ SeveralLines code.number (text_of first) (map text_of inner.items) (text_of last) }
    {
        Reply {
            code,
            lines: Lines::Several(first, inner, last),
        }
    }

    /// Appends the octets of the reply. Returns `Err` if memory runs out; then nothing is appended.
    ///
    /// No line of a reply contains a CR or an LF, and no code is outside 100 to 599.
    pub fn write_to<B: Allocator>(&self, buffer: &mut Vec<u8, B>) -> Result<(), AllocError>
        ensures reply { IsReply self.now }
        ensures appended { Adds result buffer.old buffer.new (reply_text self.now) }
        ensures unchanged { OnErr result (buffer.new.items ≡ buffer.old.items) }
    {
        let length = buffer.len();
        let written = match &self.lines {
            Lines::One(text) => push_coded(buffer, self.code, " ", text.as_str()),
            Lines::Several(first, inner, last) => push_several(
                buffer, self.code, first, inner, last,
            ),
        };
        if written.is_err() {
            buffer.truncate(length);
        }
        written
    }
}

/// Appends a line with the code.
fn push_coded<B: Allocator>(
    buffer: &mut Vec<u8, B>,
    code: ReplyCode,
    mark: &str,
    text: &str,
) -> Result<(), AllocError>
    ensures appended { Adds result buffer.old buffer.new
        (coded_line code.number mark.now text.now) }
    ensures front { KeepsFront result buffer.old buffer.new }
{
    buffer.extend_from_slice(&code.digits())?;
    buffer.extend_from_slice(mark.as_bytes())?;
    buffer.extend_from_slice(text.as_bytes())?;
    buffer.extend_from_slice(b"\r\n")
}

fn starts_with_digit(text: &str) -> bool
    ensures answer { result ≡ begins_with_digit text.now }
{
    matches!(text.as_bytes(), [b'0'..=b'9', ..])
}

/// Appends an inner line of a reply.
fn push_inner<B: Allocator>(buffer: &mut Vec<u8, B>, text: &str) -> Result<(), AllocError>
    ensures appended { Adds result buffer.old buffer.new (inner_line text.now) }
    ensures front { KeepsFront result buffer.old buffer.new }
{
    if starts_with_digit(text) {
        buffer.push(b' ')?;
    }
    buffer.extend_from_slice(text.as_bytes())?;
    buffer.extend_from_slice(b"\r\n")
}

fn push_inner_lines<A: Allocator, B: Allocator>(
    buffer: &mut Vec<u8, B>,
    inner: &[LineText<A>],
) -> Result<(), AllocError>
    ensures appended { Adds result buffer.old buffer.new
        (flat_map inner_line (map text_of inner.now)) }
    ensures front { KeepsFront result buffer.old buffer.new }
{
    for text in inner {
        push_inner(buffer, text.as_str())?;
    }
    Ok(())
}

fn push_several<A: Allocator, B: Allocator>(
    buffer: &mut Vec<u8, B>,
    code: ReplyCode,
    first: &LineText<A>,
    inner: &[LineText<A>],
    last: &LineText<A>,
) -> Result<(), AllocError>
    ensures appended { Adds result buffer.old buffer.new
        (reply_text
        (SeveralLines code.number (text_of first.now) (map text_of inner.now) (text_of last.now))) }
    ensures front { KeepsFront result buffer.old buffer.new }
{
    push_coded(buffer, code, "-", first.as_str())?;
    push_inner_lines(buffer, inner)?;
    push_coded(buffer, code, " ", last.as_str())
}
