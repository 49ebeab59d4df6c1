//! The rates that an administrator states, and the limits that follow in each tick of 100 ms.
//!
//! `Limits::of` takes the rates of the line, its two ways, groups and users; `Limits::shared_by` says among whom the
//! line is shared, which is its sessions if nothing is said. In each tick, `tree_of` makes the limit
//! tree of the transfers' asks, which a round shares out; `rate_limit` returns what a rate allows in a tick.
//!
//! ```text
//! let alloc = rt.alloc();
//! // 1,000 octets a second down, and no other limit
//! let limits = Limits::of(0, 1_000, 0, Vec::new(alloc), Vec::new(alloc))?;
//! let (user, session, way, want) = (0, 0, Way::Down, 500);
//! let ask = Ask {
//!     user,
//!     session,
//!     way,
//!     want,
//! };
//! let plan = tree_of(alloc, &limits, 7, &[(3, ask)])?; // at tick 7, of the transfer in lane 3
//! let (grants, _certificate) = allot(alloc, &plan.tree)?;
//! assert!(rt; grants.as_slice() == [100].as_slice()); // what a tenth of a second lets through
//! ```
#![tactic(auto)]

mod ask;
mod fault;
mod laws;
mod limits;
mod names;
mod plan;
mod queue;
mod rate;
mod row;
mod rows;
mod share_by;
mod trees;

pub use ask::{Ask, Name, Way};
pub use fault::{LimitsFault, PlanFault};
pub use laws::{
    floors_fit_their_names, grants_keep_names, no_groups_and_floors_is_plain,
    ten_ticks_make_a_second,
};
pub use limits::Limits;
pub use plan::{Plan, tree_of};
pub use rate::{MAX_RATE, rate_limit};
pub use row::{GroupRate, UserRate};
pub use share_by::ShareBy;
