//! A line divided among asks, without files, sessions or threads: asks in, shares out, each with the limit that holds it
//! back.
//!
//! An ask is any piece of work that waits: the request of a proxy, the job of a queue, the writer of a disk. Each is of a
//! user, who may be in a group, and of a session of that user; limits and guarantees are those of a `Limits`, in units per
//! second. `share_asks` shares a tick, a tenth of a second: whoever calls it ten times a second, with ticks that rise by
//! one, hands out each rate to the unit.
//!
//! ```text
//! let alloc = rt.alloc();
//! let limits = Limits::of(1_000, 0, 0, Vec::new(alloc), Vec::new(alloc))?; // a line of 1,000 units a second
//! let (session, way, want) = (0, Way::Down, 70);
//! let [one, other] = [0, 1].map(|user| Ask { user, session, way, want });
//! let shares = share_asks(alloc, &limits, 0, &[one, other])?;
//! assert!(rt; shares[0].grant == 50 && shares[1].grant == 50);
//! assert!(rt; shares[0].held == Some(Name::Server));
//! ```
#![tactic(auto)]

mod fault;
mod leaves;
mod share;
mod sharing;

pub use fault::NotShared;
pub use line_rates::{
    Ask, GroupRate, Limits, LimitsFault, Name, PlanFault, ShareBy, UserRate, Way,
};
pub use share::AskShare;
pub use sharing::{MAX_ASKS, share_asks};
