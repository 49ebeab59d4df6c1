//! Plans: the shares of a second of transfers that want all they can get, and the limit that holds each back.
//!
//! `plan_of` makes the tree of a second by the rates of a line (`tens`: that of a tick by ten times the rates), after the
//! sessions were admitted one after the other (`admission`), shares it, and finds the name of each transfer's
//! bottleneck (`shares`).
//!
//! ```text
//! let alloc = rt.alloc();
//! let limits = Limits::of(0, 1_001, 0, Vec::new(alloc), Vec::new(alloc))?;
//! let (user, way) = (0, Way::Down);
//! let shares = plan_of(alloc, &limits, 64, 16, &[Transfer { user, way }; 2])?; // two downloads
//! assert!(rt; shares[0].grant == 501 && shares[1].grant == 500);
//! assert!(rt; shares[1].held == Some(Name::Direction(way)));
//! ```
#![tactic(auto)]

mod admission;
mod asks;
mod fault;
mod plan;
mod shares;
mod small;
mod tens;

pub use asks::Transfer;
pub use fault::Unplanned;
pub use plan::{MAX_EXACT, plan_of};
pub use shares::TransferShare;
pub use tens::MAX_PLANNED;
