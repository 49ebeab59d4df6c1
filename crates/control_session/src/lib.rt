//! A control session, from its greeting to its close, over any host.
//!
//! A [`Host`] provides all that a session needs from outside: the store and the floors, a client's text and the way back
//! for replies, and data connections with their transfers. One that is put together of parts has a clock ([`Moments`]) and
//! a data side ([`DataSide`]) as two of them. [`run_control`] greets, takes one turn after another and closes. A turn takes one input, a line, a
//! held line or an event of the data side, passes it to the session, and has the host carry out the actions.
//! [`step_by`], [`end_by`] and [`close_by`] are the steps for hosts that lend store and floors for one step alone.
//!
//! `specs/Sessions.antt` defines a whole session, however it ends: a list of moves, each with its calls of the host, in
//! this order. It is about the text that was read, and not about its pieces.
#![tactic(auto)]

mod actions;
mod carrying;
mod closing;
mod fault;
mod hearing;
mod host;
mod lent_step;
mod no_step;
mod session;
mod side;
mod talk;
mod turn_fault;
mod turns;

pub use actions::push_answer;
pub use fault::ControlFault;
pub use host::{Host, Piece};
pub use lent_step::{close_by, end_by, step_by};
pub use no_step::NoStep;
pub use session::run_control;
pub use session_core::{Leaving, Session};
pub use side::{DataSide, Moments};
pub use turn_fault::TurnFault;
