//! Plans of a configuration, as lines or as JSON: the shares of a second, and the limit that holds each transfer back.
//!
//! ```text
//! let text = plan_lines(rt.alloc(), SMALL.as_bytes(), ShareBy::Sessions, "ann=1")?; // a server and the user `ann`
//! holds(rt, text.as_str().contains("held by"));
//! let text = plan_json(rt.alloc(), SMALL.as_bytes(), ShareBy::Sessions, "ann=1")?; // the same for programs
//! holds(rt, text.as_str().contains("\"held_by\":\"server down\""));
//! ```
#![tactic(auto)]

mod fault;
mod lines;
mod parts;
mod reporting;
mod values;
mod wishes;

pub use fault::NoPlan;
pub use reporting::{plan_json, plan_lines};
