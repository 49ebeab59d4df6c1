//! The last error of the machine in some calls.
//!
//! A call that fails returns a fault, which is a word of its layer and has no room for the error of the machine. A
//! [`LastFault`] keeps that error beside it, for whoever reports the fault: a number of the machine (errno), in one word
//! that threads share. Each handle of it puts and takes in the same word. No contract states the error that is in it at
//! any moment, since other threads change it.
//!
//! ```text
//! let fault = LastFault::new(rt.alloc())?;
//! let other = fault.another()?;
//! other.put(io::Error::from_raw_os_error(28)); // ENOSPC
//! let number = fault.take().and_then(|error| error.raw_os_error());
//! holds(rt, number == Some(28));
//! holds(rt, other.take().is_none()); // it was taken out
//! ```
#![tactic(auto)]

mod last;
mod word;

pub use last::LastFault;
pub use word::{fault_of, fault_word};
