//! A bounded queue of lines between those that write them and a reader that may stop.
//!
//! A [`LineQueue`] keeps lines in order and has an end: a line for which there is no room is dropped and counted, and a
//! line with the count takes its place as soon as there is room. [`SharedLines`] is such a queue among threads: a thread
//! that adds a line waits for no reader, and [`write_lines`] is the work of the one thread that writes to an [`LineOutlet`].
//!
//! ```text
//! let mut queue = LineQueue::new(rt.alloc()).expect(&rt, "memory");
//! queue.offer(line(&rt, "a\n"));
//! holds(&rt, queue.next_octets() == b"a\n".as_slice());
//! queue.written(1); // an octet was taken
//! holds(&rt, queue.next_octets() == b"\n".as_slice());
//! queue.written(1);
//! holds(&rt, queue.is_empty());
//! ```
#![tactic(auto)]

mod laws;
mod outlet;
mod queue;
mod rounds;
mod shared;
mod sink;
mod writing;

pub use laws::lines_are_accounted;
pub use outlet::{LineOutlet, StandardError};
pub use queue::{LineQueue, MAX_LINES, MAX_OCTETS, MAX_WRITE, REPORT_LINES, REPORT_OCTETS};
pub use rounds::{LAST_WAIT, Readiness, Round, Step, next_step, readiness_of};
pub use shared::{SharedLines, transfers_dropped};
pub use sink::{LogForm, QueuedLog, note_line, priority};
pub use writing::write_lines;
