//! Calls on files and sockets, with counts of those that passed, were interrupted, and failed.
//!
//! A fault of a [`CountedFile`] is that of a call which failed, and a result that of one which passed; a call that was
//! interrupted is made again, a hundred times at most. A socket is a file here too (RFC 959 and POSIX read and write both alike): a call on it is
//! interrupted each time that the process is stopped and continued, by SIGSTOP, a frozen container, or a tracer
//! (signal(7)), and nothing has failed then.
#![tactic(auto)]

mod counted;

pub use counted::{CountedFile, MOST_TRIES};
