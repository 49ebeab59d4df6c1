//! A door that clients come in by, and the bell that ends the wait at it.
//!
//! A [`ClientDoor`] listens at an address, and its calls wait at most the stated time: the socket is not blocking, and is
//! polled together with a [`DoorBell`]. Once the bell is rung, each wait ends at once, whatever the machine does with the
//! address of the door: a server that ends needs no connection to itself.
//!
//! A [`WaitingRoom`] keeps those who came in and have sent nothing yet, so a client that is silent delays no other.
//!
//! [`await_either`] is the same wait for a client who came in, beside a bell that is quieted before what it is rung for is
//! examined.
#![tactic(auto)]

mod bell;
mod door;
mod heard;
mod pair;
mod room;

pub use bell::DoorBell;
pub use door::ClientDoor;
pub use heard::{Arrival, Heard, arrival_of, heard_by};
pub use pair::{await_answer, await_either};
pub use room::{LONGEST_STAY, MAX_GUESTS, WaitingRoom};
