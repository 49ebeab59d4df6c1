//! Fair grants for the asks of a tick, among the sessions of the line or among its users, as its rates say.
//!
//! `tree_of` of `line_rates` plans the asks; [`share_plan`] finds the grants of the plan's tree, and seals them. Among
//! sessions they are those of `allot`; among users the users of the leaves are found first, and the grants are those of
//! `allot_by_users`.
//!
//! ```text
//! let alloc = rt.alloc();
//! // 4,000 octets a second for all, in equal parts for the users
//! let limits = Limits::of(4_000, 0, 0, Vec::new(alloc), Vec::new(alloc))?.shared_by(ShareBy::Users);
//! let asks = [(0, ask_of(7, 1)), (1, ask_of(8, 1)), (2, ask_of(8, 2))]; // one of user 7, two of user 8
//! let plan = tree_of(alloc, &limits, 0, &asks)?;
//! let shared = share_plan(alloc, &limits, 0, &asks, plan)?;
//! assert!(rt; shared.sealed.grants() == [200, 100, 100].as_slice()); // in a tenth of a second
//! ```
#![tactic(auto)]

mod asked;
mod fault;
mod owners;
mod share;

pub use fault::FairFault;
pub use share::{FairShares, share_plan, share_tree};
