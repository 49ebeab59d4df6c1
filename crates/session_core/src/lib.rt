//! The session machine: `step` is the row of the session table for each input.
//!
//! `rules.rt` has the rule of each command; `order.rt` finds its first refusal, or the location of its row; `rows.rt`
//! carries the rows out.
//!
//! ```text
//! let mut session = Session::new(rt.alloc(), settings(), PEER)?; // of a client at that address
//! says(rt, session.greet(), "220 Ready\r\n");
//! let line = Input::Line(LineItem::Command(Command::Pwd));
//! let reported = session.step(users, floors, store, line, 0); // at the moment 0
//! says(rt, reported, "530 Log in first\r\n");
//! holds(rt, !session.held_due()); // otherwise the next input is Input::Held
//! ```
#![tactic(auto)]

mod events;
mod order;
mod rows;
mod rules;
mod served;
mod session;

pub use session::{MOST_HELD, Session};
pub use session_events::{Leaving, LoggedOut};
