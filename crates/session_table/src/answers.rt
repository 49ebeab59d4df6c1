//! Replies to a client.

ghost use Rattle.std.specs.Prelude.{◌≡◌};
ghost use Rattle.ftp_reply.specs.Replies.{OneLine};
ghost use Rattle.session_table.specs.Answers.{answer_form, notice_row, refusal_row};

use crate::notices::Notice;
use crate::refusals::Refusal;
use ftp_reply::{Reply, ReplyCode};
use ftp_terms::LineText;
use ftp_wire::LineFault;
use std::alloc::{Allocator, Global};

/// A reply. Those with a fixed text take no memory.
#[derive(Drop)]
pub enum Answer<A: Allocator = Global> {
    Notice(Notice),
    Refusal(Refusal),
    /// The line is no command.
    Fault(LineFault),
    /// A reply with a computed text.
    Made(Reply<A>),
}

impl Notice {
    fn reply<A: Allocator>(self) -> Reply<A>
        ensures form { result ≡ OneLine (notice_row self).0 (notice_row self).1 }
    {
        let (code, text) = self.row();
        Reply::one_line(ReplyCode::new(code), LineText::fixed(text))
    }
}

impl Refusal {
    fn reply<A: Allocator>(self) -> Reply<A>
        ensures form { result ≡ OneLine (refusal_row self).0 (refusal_row self).1 }
    {
        let (code, text) = self.row();
        Reply::one_line(ReplyCode::new(code), LineText::fixed(text))
    }
}

impl<A: Allocator> Answer<A> {
    /// Returns the reply to write. Takes no memory.
    pub fn into_reply(self) -> Reply<A>
        ensures form { result ≡ answer_form self }
    {
        match self {
            Answer::Notice(notice) => notice.reply(),
            Answer::Refusal(refusal) => refusal.reply(),
            Answer::Fault(fault) => fault.reply(),
            Answer::Made(reply) => reply,
        }
    }
}
