//! The endings of a program on sheets.

ghost use Rattle.std.specs.Prelude.{◌≡◌};
ghost use Rattle.sheets_program.specs.Endings.{IsRefusedAs, IsReportedEnd, IsUnwritten, status_of};

use crate::cause::Cause;
use command_line::WordsFault;
use sheet_commands::{CheckFault, ShareFault};
use std::alloc::Global;
use text_io::{TextFault, TextWriter, write_whole};

/// The ending of a run of the program.
#[derive(Debug, Drop)]
pub enum Exit<'w> {
    /// The command did its work, or the words asked for help or the version.
    Done,
    /// The grants have a flaw, which was written to standard output.
    Flawed,
    /// The command line is refused; the text has the reason, and ends its line.
    Refused(String),
    /// A file could not be read whole, the output could not be written, or memory ran out.
    Text(TextFault, Cause<'w>),
    /// A sheet is not shared.
    Share(ShareFault, Cause<'w>),
    /// Grants are not checked.
    Check(CheckFault, Cause<'w>),
}

impl<'w> Exit<'w> {
    /// The status: 0 for work that is done, 1 for a fault, 2 for a refused command line, 3 for grants with a flaw.
    pub fn status(&self) -> u8
        ensures status { result ≡ status_of self.now }
    {
        match self {
            Exit::Done => 0,
            Exit::Text(_, _) | Exit::Share(_, _) | Exit::Check(_, _) => 1,
            Exit::Refused(_) => 2,
            Exit::Flawed => 3,
        }
    }

    /// Memory ran out.
    pub fn out_of_memory() -> Exit<'w>
        ensures memory { result ≡ Exit.Text TextFault.Memory
            (record { file = None; reason = None }) }
    {
        let cause = Cause {
            file: None,
            reason: None,
        };
        Exit::Text(TextFault::Memory, cause)
    }

    /// A command line that is refused with this text.
    pub fn refused(alloc: Global, text: &str) -> Exit<'w>
        ensures refused { IsRefusedAs text.now result }
    {
        match String::from_str(alloc, text) {
            Ok(text) => Exit::Refused(text),
            Err(_) => Exit::out_of_memory(),
        }
    }
}

/// Returns the ending of words without a command. Help or the version, if they asked for it, is written to the output.
pub fn report<'w, W: TextWriter>(fault: WordsFault, output: &mut W) -> Exit<'w>
    ensures reported { IsReportedEnd fault (W.contents output.old) (W.contents output.new) result }
    ensures unwritten { IsUnwritten result → output.new ≡ output.old }
{
    let WordsFault::Refused { text, is_help } = fault else {
        return Exit::out_of_memory();
    };
    if !is_help {
        return Exit::Refused(text);
    }
    match write_whole(&text, output) {
        Ok(()) => Exit::Done,
        Err(fault) => {
            let cause = Cause {
                file: None,
                reason: None,
            };
            Exit::Text(fault, cause)
        }
    }
}
