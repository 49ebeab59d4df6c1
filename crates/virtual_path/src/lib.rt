//! Paths of a virtual file system.
//!
//! A [`VPath`] is the names from a root to an entry. No name in it is empty, `.` or `..`, so no
//! path leaves its root (compare RFC 3986, section 5.2.4).
//!
//! ```text
//! let home = VPath::root(rt.alloc()).resolve(rt.alloc(), "/home/ann")?;
//! let file = home.resolve(rt.alloc(), "../bob/./f")?;
//! holds(rt, file.text() == "/home/bob/f");
//! holds(rt, file.file_name() == Some("f"));
//! ```
#![tactic(auto)]

mod fault;
mod path;
mod walk;

pub use fault::PathFault;
pub use path::VPath;
pub use walk::{is_name, parent_text};

/// Longest name, in octets.
pub const LONGEST_NAME: usize = 255;

/// Longest text of a path, in octets.
pub const LONGEST_PATH: usize = 4096;
