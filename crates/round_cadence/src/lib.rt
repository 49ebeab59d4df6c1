//! The ticks in which transfers are in a round.
//!
//! In each tick of 2 ms a rate earns little, which many transfers would share in tiny parts. So a row (the server, a
//! direction, a group or a user) that a round has drained is closed until it has earned something worth sending:
//! [`WORTH`] octets for each download that shares it, [`WORTH_UP`] for uploads, in at most [`LONGEST`] ticks. The
//! sessions of a user, each of which may have a rate of its own that it shares with no other, are such a row with one
//! sharer. If the line is shared among users, the transfers of one share her part of it, so a row has as much for the part
//! as for all of them, up to [`MOST_WORTH`] octets. A transfer is in a round only if each row that it is within is open. What the rows earn, and the laws of
//! their rates, are those of `round_pace`.
//!
//! ```text
//! let mut cadence = Cadence::new(rt.alloc(), 8, 0)?; // of users with numbers below 8
//! for _ in 0..64 {
//!     // the grants of a round in tick 0, which drained the server's rate of 2,000,000 octets a second
//!     cadence.add(ask, rows, 62, 1);
//! }
//! cadence.settle(Way::Down, 7, rows, 0);
//! holds(rt, cadence.opens(Way::Down, 7, rows) == 31); // the last tick of the first 32
//! ```
#![tactic(auto)]

mod beat;
mod cadence;
mod crowd;
mod intervals;

pub use beat::{Beat, SHARER_PARTS, WayBeats};
pub use cadence::Cadence;
pub use crowd::crowd_of;
pub use intervals::{LAST_BUT_TEN, LONGEST, MOST_WORTH, WORTH, WORTH_UP, interval, next_opening};
