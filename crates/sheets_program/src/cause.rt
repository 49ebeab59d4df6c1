//! The file of a fault, and the machine's error for it.

ghost use Rattle.std.specs.Prelude.{◌≡◌};
ghost use Rattle.sheets_program.specs.Runs.{checked_file, file_of, shared_file, text_file};

use sheet_commands::{CheckFault, ShareFault};
use std::io;
use text_io::TextFault;

/// The path of the file of a fault, if it has one, and the machine's error, if there was one.
#[derive(Clone, Copy, Debug)]
pub struct Cause<'w> {
    pub file: Option<&'w str>,
    pub reason: Option<io::Error>,
}

/// Returns the cause of a fault of a command that reads one file and writes a text.
pub fn text_cause<'w>(fault: TextFault, path: &'w str, reason: Option<io::Error>) -> Cause<'w>
    ensures file { file_of result ≡ text_file path.now fault }
{
    let file = match fault {
        TextFault::WriteFault | TextFault::Memory => None,
        TextFault::TooLong | TextFault::ReadFault => Some(path),
    };
    Cause { file, reason }
}

/// Returns the cause of a fault of `share`.
pub(crate) fn share_cause<'w>(
    fault: ShareFault,
    sheet: &'w str,
    reason: Option<io::Error>,
) -> Cause<'w>
    ensures file { file_of result ≡ shared_file sheet.now fault }
{
    match fault {
        ShareFault::Text(fault) => text_cause(fault, sheet, reason),
        ShareFault::Sheet(_) | ShareFault::UserTooLarge => Cause {
            file: Some(sheet),
            reason,
        },
    }
}

/// Returns the cause of a fault of `check`, from the path of each file and the machine's error for it.
pub(crate) fn check_cause<'w>(
    fault: CheckFault,
    sheet: &'w str,
    sheet_reason: Option<io::Error>,
    grants: &'w str,
    grants_reason: Option<io::Error>,
) -> Cause<'w>
    ensures file { file_of result ≡ checked_file sheet.now grants.now fault }
{
    match fault {
        CheckFault::SheetText(_) | CheckFault::Sheet(_) => Cause {
            file: Some(sheet),
            reason: sheet_reason,
        },
        CheckFault::GrantsText(_) | CheckFault::Grants(_) => Cause {
            file: Some(grants),
            reason: grants_reason,
        },
        CheckFault::Text(_) => Cause {
            file: None,
            reason: None,
        },
    }
}
