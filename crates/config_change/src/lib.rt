//! Changes of a configuration that is read again while a server runs.
//!
//! `fixed_key` is the first key that cannot change while a server runs, and `count_fault` the reason for which it cannot
//! take a maximum number of connections. `renumbered` gives the users and groups of a configuration the numbers that
//! they have in the server, by their names. These are pure functions: nothing is read, and nothing is served otherwise.
//!
//! ```text
//! let again = renumbered(rt.alloc(), config, &started.users, &started.groups)?;
//! holds(rt, again.users.number("ann") == started.users.number("ann"));
//! let fault = count_fault(64, 10, 8); // room for 64, and 10 are there
//! holds(rt, fault.is_some());
//! ```
#![tactic(auto)]

mod fault;
mod fixed;
mod groups;
mod known;
mod past;
mod renumber;
mod rows;

pub use fault::RenumberFault;
pub use fixed::{CountFault, FixedKey, FixedValues, count_fault, fixed_key};
pub use known::{NumberedName, known_names};
pub use past::with_past;
pub use renumber::renumbered;
