//! Limits of the time that a server waits for its clients.
//!
//! [`Patience`] has the limits that the words of a command line state. A session keeps [`Waits`], and asks them whether
//! its client has passed a limit; a server that drains asks [`Patience`] itself.
//!
//! ```text
//! let patience = Patience {
//!     login_timeout: 60,
//!     idle_timeout: 900,
//!     login_delay: 1,
//!     drain_timeout: 0,
//! };
//! let mut waits = Waits::new(0); // a client has connected; moments are microseconds
//! holds(&rt, waits.time_out(patience, 60_000_000).is_none());
//! let late = waits.time_out(patience, 60_000_001);
//! holds(&rt, late == Some(TimeOut::Login));
//! waits.log_in();
//! waits.hear(60_000_001); // its lines came
//! holds(&rt, waits.time_out(patience, 960_000_001).is_none());
//! let late = waits.time_out(patience, 960_000_002);
//! holds(&rt, late == Some(TimeOut::Idle));
//! ```
#![tactic(auto)]

mod patience;
mod waits;

pub use patience::Patience;
pub use waits::{TimeOut, Waits};
