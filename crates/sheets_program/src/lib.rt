//! The commands on sheets: the command that the words name, run on files; the status that the program ends with, and
//! its messages on standard error. `sheets` has no other commands; `ftpd` has more, and ends in more ways.
//!
//! ```text
//! let mut files = Text("limit / 10\nwant /a 8\nwant /b 5\n"); // opens what the words name
//! let mut output = Vec::new(rt.alloc());
//! let words = ["share", "lunch.sheet"];
//! let ending = run_sheets(rt.alloc(), &words, &mut files, &mut output);
//! holds(&rt, ending.status() == 0);
//! let shares = b"/a 5 of 8 full /\n/b 5 of 5\ntotal 10\n";
//! holds(&rt, output.as_slice() == shares.as_slice());
//! ```
#![tactic(auto)]

mod cause;
mod ending;
mod files;
mod line;
mod machine;
mod noted;
mod reported;
mod run;

pub use cause::{Cause, text_cause};
pub use ending::{Exit, report};
pub use files::{DASH, Opener, STANDARD_INPUT, is_input};
pub use line::{as_words, line_words};
pub use machine::{Machine, Opened, null_device};
pub use noted::{NOBODY_READS, Noted};
pub use reported::{ErrorText, TextReason};
pub use run::{run_sheet_words, run_sheets};
