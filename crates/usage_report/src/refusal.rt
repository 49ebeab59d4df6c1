//! The words that ask for no report, refused.

use crate::ask::{AskFault, AskWords};
use crate::source::NoUsage;
use std::alloc::{AllocError, Global};

// The refusal of a value of an option, with the name of such a value in the help.
fn of_value(
    alloc: Global,
    option: &str,
    name: &str,
    value: Option<&str>,
    fault: AskFault,
) -> Result<String, AllocError> {
    let value = value.unwrap_or("");
    format!(in alloc;
        "error: invalid value '{value}' for '--{option} <{name}>': {fault}\n\nFor more information, try '--help'.\n"
    )
}

fn refusal(alloc: Global, words: &AskWords<'_>, fault: AskFault) -> Result<String, AllocError> {
    match fault {
        AskFault::Key => of_value(alloc, "by", "KEY", words.by, fault),
        AskFault::Day => of_value(alloc, "day", "DAY", words.day, fault),
        AskFault::First => of_value(alloc, "first", "N", words.first, fault),
        AskFault::TwoForms => {
            format!(in alloc; "error: {fault}\n\nFor more information, try '--help'.\n")
        }
    }
}

/// The refusal of words that ask for no report.
pub(crate) fn refused<'p>(alloc: Global, words: &AskWords<'_>, fault: AskFault) -> NoUsage<'p> {
    match refusal(alloc, words, fault) {
        Ok(text) => NoUsage::Refused(text),
        Err(_) => NoUsage::Memory,
    }
}
