//! The core of sharing as a program: a world of lanes and rounds that takes one event at a time, and its laws.
//!
//! [`World`] takes the events of `world_terms`, answers each, and keeps its books. `specs/Laws.antt` states the
//! properties of every list of events, whatever rounds and workers do; each function of `laws.rt` has one of these laws
//! as its contract. The server runs none of it: the exchanges of its desk are proved to be these events, and tests
//! compare the two.
//!
//! ```text
//! let alloc = rt.alloc();
//! // 30 octets a second, so 3 in a tick
//! let limits = Limits::of(30, 0, 0, Vec::new(alloc), Vec::new(alloc))?;
//! let mut world = World::new(alloc, 1, limits)?;
//! let ask = Ask {
//!     user: 0,
//!     session: 0,
//!     way: Way::Down,
//!     want: 5,
//! };
//! let events = [
//!     Event::Sit { lane: 0 },
//!     Event::Asked { lane: 0, ask },
//!     Event::Collect { lane: 0 },
//!     Event::Decide { moment: 100 },
//!     Event::Post { lane: 0 },
//! ];
//! let replies = world.run(&events)?;
//! holds(&rt, replies.len() == 5);
//! holds(&rt, replies.last() == Some(&Ok(EventAnswer::Posted(3))));
//! holds(&rt, world.issued() == 3);
//! ```
#![tactic(auto)]

mod deal;
mod fault;
mod lane;
mod laws;
mod share;
mod world;

pub use fault::WorldFault;
pub use laws::{
    decisions_are_best, decisions_keep_floors, decisions_keep_limits,
    issued_is_the_sum_of_the_shares, moved_in_all_is_within_the_limits,
    moved_under_a_name_is_within_its_limits, taken_answers_the_last_ask, taken_begins_posted,
    taken_is_accounted_for,
};
pub use world::World;
pub use world_terms::{Event, EventAnswer, LaneState, StepFault};
