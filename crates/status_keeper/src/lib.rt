//! A handler that keeps a server's status.
//!
//! [`StatusKeeper`] passes each event on to the handler within. It keeps the clients that are connected, which transfer each
//! of them has begun and what users got, and counts ends, logins and refused clients. Shown what goes on, it makes a [`server_status::Status`] of that and of the
//! [`StatusFacts`] of the configuration, and puts it into a [`StatusCell`], which others read. Without a cell it keeps
//! nothing.
#![tactic(auto)]

mod accounts;
mod cell;
mod endings;
mod facts;
mod keeper;
mod kept_hooks;
mod looks;
mod making;
mod sessions;
mod shown;

pub use cell::StatusCell;
pub use facts::{
    Counts, KeptAccount, KeptSession, KeptTransfer, StatedGroup, StatedUser, StatusFacts,
};
pub use keeper::StatusKeeper;
pub use kept_hooks::{KeptHooks, TransferCourse};
pub use making::status_of;
