//! The parts of a server that are lent to its threads, and what is known of them once all are returned.
//!
//! A thread may do anything with what it is lent that its type allows, so what must be known of it afterwards is in its
//! type. A [`PartsName`] names the parts of one server there: a [`LentWorker`] is a lane's seat of its desk, with the
//! tally of everything that it took, [`LentRounds`] are the rounds of that desk with its book, and a [`LentPass`]
//! belongs to its boards, whatever threads did with them and in whatever order. So once [`settle_lent`] has gathered
//! everything, or [`LentSeats`] have settled themselves, the octets issued are those moved and those given back.
#![tactic(auto)]

mod board;
mod clock;
mod counting;
mod desk;
mod look;
mod name;
mod rounds;
mod seats;
mod settlement;
mod worker;

pub use board::{LentBoard, LentPass};
pub use clock::{Moment, RoundClock};
pub use desk::LentDesk;
pub use look::RoundLook;
pub use name::PartsName;
pub use rounds::LentRounds;
pub use seats::LentSeats;
pub use settlement::{MisplacedParts, settle_lent};
pub use worker::LentWorker;
