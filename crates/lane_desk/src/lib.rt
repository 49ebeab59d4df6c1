//! The desk between rounds and workers, without a lock, and its settlement.
//!
//! [`open_desk`] makes a desk of up to 64 lanes: a [`Desk`] that all threads share, the right to its rounds
//! ([`RoundDesk`]), and for each lane the right to work on it ([`LaneSeat`]). A worker sits down, asks for octets,
//! takes what is granted, and rises. A round collects the asks, decides on the best grants for the tree of the tick,
//! enters them into the book, and posts a grant for each ask; a round that is refused answers each ask with a grant of
//! 0 octets. Each call is one exchange on the word of a lane: it takes no lock and never waits for another thread. The
//! words, and who may change them when, are drawn in docs/desk.md; `desk_rule` defines them.
//!
//! For the accounts, a seat is kept with its tally ([`Worked`]) and the round with its book ([`Rounds`]): their types
//! say that what was taken was moved or given back, and that what was issued was posted. [`settle_all`] closes the desk
//! and gathers both, and then the octets issued are those moved and those given back, whatever the threads did and in
//! which order.
#![tactic(auto)]

mod asks;
mod close;
mod collect;
mod decision;
mod desk;
mod fault;
mod gather;
mod lane_close;
mod open;
mod post;
mod record;
mod refusal;
mod round;
mod rounds;
mod seat;
mod settlement;
mod worked;

pub use close::{Lists, close_desk};
pub use desk::Desk;
pub use desk_rule::SeatState;
pub use fault::DeskFault;
pub use open::open_desk;
pub use record::{RoundFault, RoundRecord};
pub use refusal::RoundRefusal;
pub use round::RoundDesk;
pub use rounds::Rounds;
pub use seat::LaneSeat;
pub use settlement::settle_all;
pub use worked::Worked;
