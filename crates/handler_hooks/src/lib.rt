//! Callbacks of a server's owner for the events of sessions, in the order in which they happen.
//!
//! ```text
//! let mut clients = Clients { there: 0 }; // a handler, with a callback for each event
//! run_hooks(&mut clients, greeting); // one call for each Hook among the actions, in order
//! holds(rt, clients.there == 1);
//! ```
#![tactic(auto)]

mod hooks;
mod run;

pub use hooks::Hooks;
pub use run::{report, run_hooks};
