//! The table of the transfers of a running server: who gets how much of the line, and which limit holds whom back.
//!
//! ```text
//! let screen = table_lines(rt.alloc(), None, None, &status, 24)?;
//! ```
#![tactic(auto)]

mod cells;
mod heads;
mod held;
mod lines;
mod looks;
mod rates;
mod table;
mod widths;

pub use looks::looks_lines;
pub use server_status::Status;
pub use table::table_lines;
