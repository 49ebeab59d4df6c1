//! Lines that are not commands.

ghost use Rattle.std.specs.Prelude.{◌≡◌, ◌≤◌};
ghost use Rattle.ftp_terms.specs.Lines.{IsLine};
ghost use Rattle.ftp_reply.specs.Replies.{OneLine};

use ftp_reply::{HIGHEST_CODE, LOWEST_CODE, Reply, ReplyCode};
use ftp_terms::LineText;
use std::alloc::Allocator;

/// The reason for which a line is not a command. If several apply, the first in this order is reported.
#[derive(Clone, Copy, Debug, PartialEq, Eq)]
pub enum LineFault {
    /// More than 4,096 octets before the end of the line.
    TooLong,
    /// No code: nothing before the first space.
    Empty,
    /// The code is unknown.
    Unknown,
    /// The code is known but not served.
    NotServed,
    ArgumentMissing,
    ArgumentUnwanted,
    /// The argument is not UTF-8 without control characters, or does not have the command's form.
    BadArgument,
    /// The argument has the command's form, but its value is not served.
    BadParameter,
}

impl LineFault {
    ghost use Rattle.ftp_wire.specs.Faults.{fault_reply};

    /// The reply to such a line (RFC 959, section 4.2.1). Takes no memory.
    pub fn reply<A: Allocator>(self) -> Reply<A>
        ensures reply { result ≡ fault_reply self }
    {
        match self {
            LineFault::TooLong => one_line(500, "Line too long"),
            LineFault::Empty => one_line(500, "Empty line"),
            LineFault::Unknown => one_line(500, "Unknown command"),
            LineFault::NotServed => one_line(502, "Command not served"),
            LineFault::ArgumentMissing => one_line(501, "Argument missing"),
            LineFault::ArgumentUnwanted => one_line(501, "Argument not wanted"),
            LineFault::BadArgument => one_line(501, "Bad argument"),
            LineFault::BadParameter => one_line(504, "Parameter not served"),
        }
    }
}

fn one_line<A: Allocator>(code: u16, text: &'static str) -> Reply<A>
    requires low { LOWEST_CODE ≤ code }
    requires high { code ≤ HIGHEST_CODE }
    requires line { IsLine text.now }
    ensures form { result ≡ OneLine code text.now }
{
    Reply::one_line(ReplyCode::new(code), LineText::fixed(text))
}
