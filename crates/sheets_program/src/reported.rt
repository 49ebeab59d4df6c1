//! The messages of a program on standard error: the name of a fault in the last line, and details above it.

use crate::cause::Cause;
use crate::ending::Exit;
use limit_tree::TreeFault;
use sheet_commands::{CheckFault, GrantsFault, ShareFault};
use sheet_text::{Hint, SheetFault};
use std::{fmt, io};
use text_io::{MAX_TEXT, TextFault};

const SHEET_LINE: &str =
    "a line is `limit PATH N`, `limit PATH -`, `want PATH N` or `want PATH N FLOOR`";

const GRANTS_LINE: &str = "a line is `grant PATH N` or `grant PATH N NODE`";

const TOO_LARGE: &str =
    "a user of this depth can have more than 4294967295 octets, and a limit above it holds it back";

/// An ending, as the program of that name prints it.
#[derive(Clone, Copy)]
pub struct ErrorText<'e, 'w> {
    pub name: &'e str,
    pub ending: &'e Exit<'w>,
    /// The last error of standard output, if any.
    pub output: Option<io::Error>,
}

/// The line above the fault of a text: its file, and the machine's reason.
#[derive(Clone, Copy)]
pub struct TextReason<'w> {
    pub fault: TextFault,
    pub cause: Cause<'w>,
    /// The last error of standard output, if any.
    pub output: Option<io::Error>,
}

fn name_of<'w>(cause: &Cause<'w>) -> &'w str {
    cause.file.unwrap_or("standard input")
}

impl fmt::Display for TextReason<'_> {
    fn fmt<W: fmt::Write>(&self, f: &mut fmt::Formatter<W>) -> fmt::Result {
        let file = name_of(&self.cause);
        match (self.fault, self.cause.reason, self.output) {
            (TextFault::TooLong, _, _) => writeln!(f, "{file}: more than {MAX_TEXT} octets"),
            (TextFault::ReadFault, Some(error), _) => writeln!(f, "{file}: {error}"),
            (TextFault::WriteFault, _, Some(error)) => writeln!(f, "standard output: {error}"),
            _ => Ok(()),
        }
    }
}

fn tree_words(fault: TreeFault) -> &'static str {
    match fault {
        TreeFault::TooDeep => "a path has at most 16 names",
        TreeFault::TooManyLeaves => "a sheet has at most 4096 wants and 4194304 nodes",
        TreeFault::WantTooLarge => "a want is at most 4294967295",
        TreeFault::LimitTooLarge => "a limit is at most 4503599627370496; `-` is no limit",
        TreeFault::FloorTooLarge => "a floor is at most its want",
        TreeFault::FloorsOverLimit(_) => "the floors beneath this limit exceed it",
    }
}

fn sheet_words(fault: SheetFault) -> &'static str {
    match fault {
        SheetFault::BadLine(_, _) => SHEET_LINE,
        SheetFault::Twice(_) => "the path has a line already",
        SheetFault::LeafHasKids(_) => {
            "the path is beneath a want, or wants and is above another path"
        }
        SheetFault::Tree(_, fault) => tree_words(fault),
        SheetFault::Memory => "memory ran out",
    }
}

fn grants_words(fault: GrantsFault) -> &'static str {
    match fault {
        GrantsFault::BadLine(_, _) => GRANTS_LINE,
        GrantsFault::WrongPath(_) => "there is one line for each want, in the order of the wants",
        GrantsFault::NoSuchNode(_) => "the sheet has no node of the last path",
        GrantsFault::Memory => "memory ran out",
    }
}

/// The way to mend a line that is no statement.
fn hint_words(hint: Hint) -> &'static str {
    match hint {
        Hint::ByteOrderMark => "the line begins with a byte order mark; save the file without one",
        Hint::Tab => "the line has a tab; there is one blank between words",
        Hint::Remark => "a remark has a line of its own, which begins with `#`",
        Hint::Blank => "there is one blank between words, and none before or after them",
        Hint::Unit => "a number is digits alone, as 10000000 for 10M",
    }
}

/// The lines above the fault of a sheet.
fn sheet_above<W: fmt::Write>(
    f: &mut fmt::Formatter<W>,
    cause: &Cause<'_>,
    fault: SheetFault,
) -> fmt::Result {
    writeln!(f, "{}: {}", name_of(cause), sheet_words(fault))?;
    match fault {
        SheetFault::BadLine(_, Some(hint)) => writeln!(f, "hint: {}", hint_words(hint)),
        _ => Ok(()),
    }
}

/// The lines above the fault of a grants file.
fn grants_above<W: fmt::Write>(
    f: &mut fmt::Formatter<W>,
    cause: &Cause<'_>,
    fault: GrantsFault,
) -> fmt::Result {
    writeln!(f, "{}: {}", name_of(cause), grants_words(fault))?;
    match fault {
        GrantsFault::BadLine(_, Some(hint)) => writeln!(f, "hint: {}", hint_words(hint)),
        _ => Ok(()),
    }
}

impl ErrorText<'_, '_> {
    fn text_above<W: fmt::Write>(
        &self,
        f: &mut fmt::Formatter<W>,
        cause: &Cause<'_>,
        fault: TextFault,
    ) -> fmt::Result {
        let reported = TextReason {
            fault,
            cause: *cause,
            output: self.output,
        };
        write!(f, "{reported}")
    }

    fn share_above<W: fmt::Write>(
        &self,
        f: &mut fmt::Formatter<W>,
        cause: &Cause<'_>,
        fault: ShareFault,
    ) -> fmt::Result {
        match fault {
            ShareFault::Text(fault) => self.text_above(f, cause, fault),
            ShareFault::Sheet(fault) => sheet_above(f, cause, fault),
            ShareFault::UserTooLarge => writeln!(f, "{}: {TOO_LARGE}", name_of(cause)),
        }
    }

    fn check_above<W: fmt::Write>(
        &self,
        f: &mut fmt::Formatter<W>,
        cause: &Cause<'_>,
        fault: CheckFault,
    ) -> fmt::Result {
        match fault {
            CheckFault::SheetText(fault) => self.text_above(f, cause, fault),
            CheckFault::GrantsText(fault) => self.text_above(f, cause, fault),
            CheckFault::Text(fault) => self.text_above(f, cause, fault),
            CheckFault::Sheet(fault) => sheet_above(f, cause, fault),
            CheckFault::Grants(fault) => grants_above(f, cause, fault),
        }
    }
}

impl fmt::Display for ErrorText<'_, '_> {
    fn fmt<W: fmt::Write>(&self, f: &mut fmt::Formatter<W>) -> fmt::Result {
        match self.ending {
            Exit::Done => Ok(()),
            Exit::Flawed => Ok(()),
            Exit::Refused(text) => write!(f, "{text}"),
            Exit::Text(fault, cause) => {
                self.text_above(f, cause, *fault)?;
                writeln!(f, "{}: {fault}", self.name)
            }
            Exit::Share(fault, cause) => {
                self.share_above(f, cause, *fault)?;
                writeln!(f, "{}: {fault}", self.name)
            }
            Exit::Check(fault, cause) => {
                self.check_above(f, cause, *fault)?;
                writeln!(f, "{}: {fault}", self.name)
            }
        }
    }
}
