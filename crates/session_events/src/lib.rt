//! The inputs of a session other than lines: the end of a transfer, a passive port, the end of the control connection.
//!
//! ```text
//! let reported = end_transfer(state, users, store, End::Done, &mut None, 0);
//! says(rt, reported, "226 Transfer complete\r\n"); // and the replies to the lines that waited
//! state.await_port(Passive::Plain);
//! let reported = take_port(state, users, Some(40_000));
//! says(
//!     rt,
//!     reported,
//!     "227 Entering Passive Mode (127,0,0,1,156,64)\r\n",
//! );
//! says(rt, close(state), ""); // what is left to drop, and to tell the handler
//! ```
#![tactic(auto)]

mod closing;
mod ends;
mod ready;

pub use closing::{Leaving, LoggedOut, close, leave};
pub use ends::{end_transfer, finish};
pub use ready::take_port;
