//! The status of a server: the transfers that run, and what holds each of them back. As JSON, and read from it.
//!
//! ```text
//! let text = status_text(rt.alloc(), status)?; // of a server, once a second
//! let read = read_status(rt.alloc(), text.as_bytes())?; // by whoever shows it
//! holds(
//!     rt,
//!     read.issued == status.issued && read.transfers.len() == status.transfers.len(),
//! );
//! ```
#![tactic(auto)]

mod fault;
mod judging;
mod member;
mod reading;
mod records;
mod status;
mod values;
mod writing;

pub use fault::StatusFault;
pub use reading::read_status;
pub use status::{
    AccountStatus, Direction, EndCounts, GroupStatus, HeldRounds, LineRates, Rate, SessionStatus,
    SharedAmong, Status, TransferStatus,
};
pub use writing::status_text;
