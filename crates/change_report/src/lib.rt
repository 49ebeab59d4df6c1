//! The report on a change: what a server that has one configuration would change if it read another one while it runs,
//! or the reason for which it would refuse that; as lines or as JSON. Only the two texts are examined: how many clients
//! are connected, and what their sessions are guaranteed, is known to the server alone.
//!
//! ```text
//! let report = reload_report(rt.alloc(), false, SMALL.as_bytes(), SMALL.as_bytes())?; // a file against itself
//! holds(
//!     rt,
//!     report.text.as_str() == "a reload would change nothing\n",
//! );
//! holds(rt, !report.is_refused);
//! ```
#![tactic(auto)]

mod changes;
mod fault;
mod limits;
mod lines;
mod names;
mod reason;
mod reporting;
mod rules;
mod settings;
mod users;
mod values;

pub use fault::ChangeFault;
pub use reporting::{ChangeReport, reload_report};
