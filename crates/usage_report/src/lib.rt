//! The transfers of transfer logs, added up: their number, octets and seconds, by user, file, hour or address.
//!
//! ```text
//! let day = read_day("2026-11-26");
//! let mut usage = Usage::new(rt.alloc(), UsageKey::User, day);
//! let mut log = NEW;
//! let look = usage.take_log(rt.alloc(), &mut log).expect(&rt, "sums");
//! let seen = LogLook {
//!     lines: 5,
//!     unread: 1,
//!     first_unread: Some(3),
//! };
//! holds(&rt, look == seen);
//! let ann = Sums {
//!     transfers: 2,
//!     octets: 106,
//!     seconds: 6,
//! };
//! holds(&rt, usage.rows.get("ann").copied() == Some(ann));
//! let all = Sums {
//!     transfers: 3,
//!     octets: 116,
//!     seconds: 7,
//! };
//! holds(&rt, usage.total == all);
//! ```
#![tactic(auto)]

mod adding;
mod ask;
mod csv;
mod fault;
mod key;
mod log;
mod look;
mod rank;
mod refusal;
mod report;
mod reporting;
mod source;
mod table;
mod usage;
mod values;

pub use adding::Sums;
pub use ask::{AskFault, AskWords, FIRST, MOST_FIRST, UsageAsk, UsageForm, asked, key_name};
pub use fault::UsageFault;
pub use key::UsageKey;
pub use log_lines::{LogDay, LogLine, LogMoment, read_day, read_line};
pub use look::LogLook;
pub use rank::{UsageRow, ranked};
pub use reporting::usage_text;
pub use source::{LogSource, NoUsage};
pub use usage::Usage;
