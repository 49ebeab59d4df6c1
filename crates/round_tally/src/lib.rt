//! The limit that holds a transfer back in a round, and tallies of it and of the octets that rounds have granted.
//!
//! A leaf of the tree of a tick that has less than it wants has a bottleneck, whose number is its entry in the
//! certificate of the grants. The branch of that number is that of a name: the server, or the direction, group, user or
//! session of the leaf's ask. [`held_by`] finds the name; [`bears`] is whether an ask counts under one.
//!
//! A lane runs one transfer after another. [`Tallies`] has a tally of the last one of each lane, by a number that the
//! lane gives it. A grant to a transfer of another number begins a tally, and adds the one before to those of the
//! transfers that have ended. So no octet is left out: all tallies together have what was counted.
//!
//! ```text
//! let mut tallies = Tallies::new();
//! tallies.count(0, 1, grant(100, None, 0)); // 100 octets to the first transfer of lane 0, all that it asked for
//! tallies.count(0, 2, grant(30, Some(Name::Server), 1)); // the first has ended
//! assert!(rt; tallies.lane(0).granted == 30 && tallies.lane(0).all_rounds().server == 1);
//! assert!(rt; tallies.ended().granted == 100 && tallies.ended().held.nothing == 1);
//! ```
#![tactic(auto)]

mod bottleneck;
mod held;
mod names;
mod tallies;

pub use bottleneck::held_by;
pub use held::{HeldTally, held_back};
pub use names::bears;
pub use tallies::{LaneTally, RoundGrant, Tallies};
