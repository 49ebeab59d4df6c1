//! Words that threads wait on and other threads signal.
//!
//! An [`EventCount`] is a count that only increases. A waiter reads it before checking for the event, and waits until
//! it changes, so a signal between the check and the wait is not lost. It has one waiter at a time. A
//! [`SharedEventCount`] has any number, of which a signal wakes one, or all.
//!
//! A wait may also end spuriously, and ends at its time limit: a waiter checks again. No contract states the value of a
//! count at any moment, since other threads change it; that waits end and no signal is lost is tested.
//!
//! ```text
//! let waker = EventCount::new();
//! let seen = waker.seen(); // before the look for what is signalled
//! waker.signal();
//! waker.wait(&rt, seen, 0, Duration::from_secs(60)); // returns at once
//! assert!(rt; waker.seen() != seen);
//! ```
#![tactic(auto)]

mod clock;
mod count;
mod half;
mod shared;

pub use clock::{has_passed, micros};
pub use count::EventCount;
pub use shared::SharedEventCount;
