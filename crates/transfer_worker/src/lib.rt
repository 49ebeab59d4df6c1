//! The board on which transfers wait, and the worker of a lane, which runs each to its end by what rounds grant to its
//! seat.
//!
//! Sessions push jobs to a [`JobBoard`] and workers pop them, from any number of threads, without a lock. Each thread
//! has a [`BoardPass`] of its own. All jobs are in one list, in the order of their pushes: a job is popped once, the
//! oldest first, and a push fails only if the board was full at a moment of the call.
//!
//! [`worker_loop`] sits down for a job, asks for what waits, takes the grant that answers the ask, pumps just that, and
//! rises once the transfer has ended. A [`Gate`] says when it may go on, and is told how each job ended. The loop is
//! generic over file, connection and gate, so it runs over sockets and over ends in memory alike. [`run_job`] runs one
//! job alone, for a thread that is lent its seat and pops jobs itself.
#![tactic(auto)]

mod board;
mod end;
mod fault;
mod gate;
mod grants;
mod job;
mod opened;
mod order;
mod running;
mod transfer;
mod turns;
mod work;

pub use board::{BoardPass, JobBoard};
pub use end::{JobEnd, LoopEnd};
pub use fault::BoardFault;
pub use gate::{Gate, Go, Remnant};
pub use job::{LaneJob, Ran};
pub use opened::open_board;
pub use order::{Hand, InOrder};
pub use transfer::run_job;
pub use turns::{turn_in, turn_out};
pub use work::worker_loop;
