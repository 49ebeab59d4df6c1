//! Replies of one line with a computed text.

ghost use Rattle.std.specs.Prelude.{◌≡◌, ◌≤◌, IfOk};
ghost use Rattle.ftp_reply.specs.Quoting.{quoted};
ghost use Rattle.ftp_reply.specs.Replies.{OneLine};
ghost use Rattle.ftp_terms.specs.LineText.{text_of};
ghost use Rattle.ftp_terms.specs.Lines.{IsLine};
ghost use Rattle.session_table.specs.declared.answers.Answer.TheVariants.{Made};

use ftp_reply::{HIGHEST_CODE, LOWEST_CODE, Reply, ReplyCode, quoted_path};
use ftp_terms::LineText;
use session_table::Answer;
use std::alloc::{AllocError, Allocator};

/// A reply of one line with a computed text.
pub fn made<A: Allocator>(code: u16, text: LineText<A>) -> Answer<A>
    requires low { LOWEST_CODE ≤ code }
    requires high { code ≤ HIGHEST_CODE }
    ensures reply { result ≡ Made (OneLine code (text_of text)) }
{
    Answer::Made(Reply::one_line(ReplyCode::new(code), text))
}

/// A reply of one line with a configured text.
pub fn copied<A: Allocator>(alloc: A, code: u16, text: &str) -> Result<Answer<A>, AllocError>
    requires low { LOWEST_CODE ≤ code }
    requires high { code ≤ HIGHEST_CODE }
    requires line { IsLine text.now }
    ensures reply { IfOk result (λ reply. reply ≡ Made (OneLine code text.now)) }
{
    let copy = String::from_str(alloc, text)?;
    Ok(made(code, LineText::made(copy)))
}

/// The reply to PWD and MKD: the path in quotes (RFC 959, appendix II).
pub fn path_answer<A: Allocator>(alloc: A, path: &str) -> Result<Answer<A>, AllocError>
    requires line { IsLine path.now }
    ensures reply { IfOk result (λ reply. reply ≡ Made (OneLine 257 (quoted path.now))) }
{
    let text = quoted_path(alloc, path)?;
    Ok(made(257, text))
}
