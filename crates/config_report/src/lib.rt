//! The report on a configuration, as lines or as JSON: the address of the server, its bounds, its users, limits and
//! guarantees, and warnings of settings that are accepted and have no use, also by a look at the machine.
//!
//! ```text
//! let text = report(rt.alloc(), by, "ftpd.toml", SMALL.as_bytes(), &machine)?; // a server and the user `ann`
//! holds(rt, text.as_str().starts_with("listens on 127.0.0.1:2121\n"));
//! let text = report_json(rt.alloc(), by, "ftpd.toml", SMALL.as_bytes(), &machine)?; // the same for programs
//! holds(rt, text.as_str().contains("\"port\":2121"));
//! ```
#![tactic(auto)]

mod counted;
mod floors;
mod homes;
mod letters;
mod lines;
mod looks;
mod reporting;
mod roots;
mod seen;
mod server_lines;
mod together;
mod user_lines;
mod values;
mod warning;
mod warnings;

pub use floors::{ShortRate, Shortage};
pub use looks::{Lookout, Sight};
pub use reporting::{report, report_json, warning_texts};
pub use roots::is_nearly_memory;
pub use warning::Warning;
