//! A desk for tests: each call checks its own precondition, and returns `false` or `None` if it does not hold.
//!
//! ```text
//! let limits = limits(&rt, 25, 0); // a server's rate of 25 octets a second: 2 in the first tick, and 3 in the next
//! let mut desk = CheckedDesk::<OfTest>::open(rt.alloc(), 2, 0).expect(&rt, "a desk");
//! holds(&rt, desk.sit(0) && desk.ask(0, down(7, 5))); // a worker on lane 0, for user 7
//! let record = desk.round(rt.alloc(), &limits, 0).expect(&rt, "a round");
//! holds(&rt, record.answered == 1 && record.sealed.total() == 2);
//! holds(&rt, desk.take(0, 1) == Some(2)); // it moves one octet, and gives one back
//! holds(&rt, desk.rise(0) && !desk.ask(0, down(7, 5)));
//! let settled = desk.close();
//! holds(
//!     &rt,
//!     settled.issued == 2 && settled.moved == 1 && settled.back == 1,
//! );
//! ```
#![tactic(auto)]

mod checked;
mod own;
mod pair;

pub use checked::CheckedDesk;
pub use own::OwnSeat;
pub use pair::{settle_two, two_seats};
