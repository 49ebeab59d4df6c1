//! Common parts of tests and measurements of transfers: ends in memory that follow a schedule, sealed decisions,
//! funds of granted octets, and whole transfers with them.
//!
//! ```text
//! // one round that granted one transfer 100 octets
//! let mut funds = Funds::new(rt.alloc(), &[100])?;
//! let grant = funds.grant(60); // at most what is left
//! grant.spend(0, &mut funds.tally);
//! assert!(rt; funds.settle().back == 100);
//! ```
#![tactic(auto)]

mod ends;
mod fault;
mod funds;
mod sealing;
mod transfers;

pub use ends::{Collected, FAULT, Inlet, MEMORY, Octets, Outlet, Scheduled};
pub use fault::FundsFault;
pub use funds::Funds;
pub use sealing::sealed;
pub use transfers::{Outcome, receive, reported, send};
