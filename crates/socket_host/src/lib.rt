//! The host of a control session over sockets, in a server whose sessions share its parts.
//!
//! A [`SocketHost`] is what `control_session` runs a session over: it lends the store and the floors of the house for
//! each step, behind their locks, reads and writes the control connection, and has the data side of the session: it
//! begins what it is asked for, a port that is listened on or a transfer, and is asked later for the result, as
//! `control_session` defines. Contracts say what is prepared and what runs after each call, what is reported, and which
//! port is kept for the next transfer. They say nothing of the network: not that a port is given back, nor that a client
//! comes.
//!
//! [`serve_session`] runs a client's whole session, from the greeting to the end. A read waits at most 200 ms, or until
//! a running transfer has ended: its lane rings the bell of the session. A client that passes a limit of time is told so, and is gone for the session (`client_patience`).
#![tactic(auto)]

mod awaited;
mod beside;
mod control;
mod declining;
mod host;
mod judging;
mod keeping;
mod last_replies;
mod moments;
mod ports;
mod refusals;
mod replying;
mod run;
mod running;
mod serving;
mod side;
mod standing;
mod unguaranteed;
mod waiting;

pub use control::ControlSocket;
pub use host::{SessionNeeds, SocketHost};
pub use serving::{serve_session, sessions_are_long};
