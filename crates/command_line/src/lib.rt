//! The command lines of `ftpd` and of `sheets`: their grammars, and the meaning of the words of a command.
//!
//! ```text
//! ftpd share SHEET [--svg] [--by DEPTH]
//! ftpd check SHEET GRANTS [--by DEPTH]
//! ftpd check-config CONFIG [--json]
//! ftpd migrate CONFIG
//! ftpd script CONFIG
//! ftpd plan CONFIG TRANSFERS [--json] [--share-by WAY]
//! ftpd serve CONFIG [--stop-file PATH] [--ready-file PATH] [--transfer-log PATH] [--log-form FORM] [--status PATH]
//!     [--status-port PORT] [--login-timeout SECONDS] [--idle-timeout SECONDS] [--login-delay SECONDS]
//!     [--share-by WAY]
//! ftpd top STATUS [--once] [--rows N]
//! ftpd usage XFERLOG.. [--day DAY] [--by KEY] [--first N] [--json] [--csv]
//!
//! sheets share SHEET [--svg] [--by DEPTH]
//! sheets check SHEET GRANTS [--by DEPTH]
//! ```
#![tactic(auto)]

mod grammar;
mod hints;
mod numbers;
mod patience;
mod usage;
mod ways;
mod words;

pub use client_patience::Patience;
pub use line_rates::ShareBy;
pub use numbers::{LEAST_ROWS, MAX_PORT, MAX_SECONDS, MOST_DEPTH, MOST_ROWS, ROWS, stated_depth};
pub use patience::{IDLE_TIMEOUT, LOGIN_DELAY, LOGIN_TIMEOUT};
pub use usage::{UsageWords, read_usage_words};
pub use words::{ServeFiles, SheetWords, Words, WordsFault, read_sheet_words, read_words};
