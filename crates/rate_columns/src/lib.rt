//! Rates as text, for the lines of reports: octets a second in a column, and Mbit/s with two decimals, in a column or
//! within a line.
//!
//! ```text
//! let mut text = String::new(rt.alloc());
//! write_rate_column(&mut text, 6_250_000)?; // 50 Mbit/s
//! write_megabits_column(&mut text, 6_250_000)?;
//! write_megabits_column(&mut text, 0)?; // no limit
//! holds(
//!     rt,
//!     text.as_str() == "       6250000       50.00           -",
//! );
//! let mut text = String::new(rt.alloc());
//! write_megabits(&mut text, 833_333)?; // 6.666664, rounded down
//! holds(rt, text.as_str() == "6.66");
//! ```
#![tactic(auto)]

mod columns;

pub use columns::{write_megabits, write_megabits_column, write_rate_column};
