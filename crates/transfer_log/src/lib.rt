//! The line of a transfer log: the standard form that wu-ftpd began, as of xferlog(5).
//!
//! ```text
//! Thu Nov 26 15:04:45 2026 2 127.0.0.1 6 /a_b.txt b _ o r ann ftp 0 * c
//! ```
//!
//! That is: the second of the end, in UTC; the whole seconds that the transfer took, at least 1; the client's address;
//! the octets that were moved; the path, with each blank, control and format character replaced; the type, `a` or `b`; no
//! special action; the direction, `o` from the server or `i` to it; the access, `a` for the users `anonymous` and `ftp`,
//! otherwise `r`; the user; the service; no other authentication; and `c` if the transfer was complete, otherwise `i`.
#![tactic(auto)]

mod line;
mod moment;
mod names;
mod place;

pub use line::{FileTransfer, transfer_line};
pub use moment::day_name;
pub use names::plain;
pub use place::{FileNumbers, must_open};
