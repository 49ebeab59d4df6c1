//! Guaranteed rates: admits sessions while their guarantees fit.
//!
//! `Floors::of` starts from the limits that an administrator states, with no session counted. `admit` counts one more
//! session of a user if all guarantees then fit the rates above it, and otherwise refuses it; `release` takes one back.
//! Neither allocates; each does at most three binary searches and a few sums. `refusal` says for which limit `admit`
//! refuses a session. `carried` counts the same sessions under other rates, if their guarantees fit.
//!
//! ```text
//! let alloc = rt.alloc();
//! let limits = Limits::of(0, 1_000, 0, Vec::new(alloc), Vec::new(alloc))?;
//! let mut floors = Floors::of(alloc, &limits)?;
//! if floors.admit(1) {
//!     // a session of user 1, whose guarantee is counted until it is released
//!     floors.release(1);
//! }
//! ```
#![tactic(auto)]

mod carry;
mod find;
mod fits;
mod floors;
mod laws;

pub use carry::CarryFault;
pub use find::{GroupPromise, UserSessions};
pub use fits::MAX_PROMISED;
pub use floors::Floors;
pub use laws::{
    carries_what_fits, no_groups_and_floors_is_plain, promises_are_kept, refuses_what_does_not_fit,
};
