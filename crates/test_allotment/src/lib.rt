//! The plain allotment: the rule of sharing, octet by octet, as a slow program. Tests compare the allotment by levels
//! with it. Each octet takes O(leaves * nodes * depth) time.
//!
//! ```text
//! let grants = allot_plainly(alloc, &tree)?; // octets a leaf, as `allot` gives them by levels
//! ```
#![tactic(auto)]

mod plain;

pub use plain::{allot_plainly, runs_end_alike};
