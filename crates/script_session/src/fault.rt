//! Faults of a configured session.

use session_host::ControlFault;
use thiserror::Error;

/// The reason for which a configured session is not served, or breaks off. It prints as its name.
#[derive(Clone, Copy, Debug, PartialEq, Eq, Error)]
pub enum SessionFault {
    /// The configured store is a folder of the machine, and not in memory.
    #[error("BadStore")]
    Folder,
    /// The session broke off.
    #[error("{0}")]
    Control(ControlFault),
}
