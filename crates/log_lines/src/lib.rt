//! Reading the lines of a transfer log: the form that the server writes, and only that.
//!
//! ```text
//! let text = b"Thu Nov 26 15:04:45 2026 2 127.0.0.1 6 /a_b.txt b _ o r ann ftp 0 * c";
//! let line = read_line(text.as_slice()).expect(&rt, "of the form");
//! holds(
//!     &rt,
//!     line.user == "ann" && line.path == "/a_b.txt" && line.octets == 6,
//! );
//! holds(
//!     &rt,
//!     line.ended.day
//!         == LogDay {
//!             year: 2026,
//!             month: 11,
//!             day: 26,
//!         },
//! );
//! ```
#![tactic(auto)]

mod kind;
mod law;
mod line;
mod moment;
mod name;
mod number;
mod word;

pub use law::written_is_read;
pub use line::{LogLine, read_line};
pub use moment::{LogDay, LogMoment, read_day};
