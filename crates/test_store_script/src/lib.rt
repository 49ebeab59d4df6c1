//! Calls on stores as lines of text, for tests: a script has the result that each call must have.
//!
//! ```text
//! make /d
//! new /d/f abc
//! read:1 /d/f = bc
//! names / = d
//! remove-directory /d = not empty
//! ```
//!
//! A line has a call's name, a path, and possibly a text or another path. After ` = ` comes its
//! result: the octets, the names or the size requested, or the text of the fault; nothing for a
//! successful call without a result.
#![tactic(auto)]

mod asking;
mod calls;
mod folders;
mod script;
mod scripts;

pub use asking::{ask, reported};
pub use calls::{Asked, Call, read_line};
pub use folders::{fresh, inside};
pub use script::first_unmet;
pub use scripts::{DIRECTORIES, FILES, RENAMES};
