//! The reasons for which a text is no status.

use std::alloc::AllocError;
use thiserror::Error;

/// The reason for which octets are not read as a status.
#[derive(Clone, Copy, Debug, PartialEq, Eq, Error)]
pub enum StatusFault {
    /// The octets are no JSON.
    #[error("no JSON")]
    NotJson,
    /// The member is missing.
    #[error("the member {0} is missing")]
    Missing(&'static str),
    /// The value of the member is of another kind.
    #[error("the member {0} has a value of another kind")]
    OtherKind(&'static str),
    /// The version is not 1.
    #[error("version {0}; only version 1 is known")]
    Version(u64),
    /// Memory ran out.
    #[error("out of memory")]
    Memory,
}

impl From<AllocError> for StatusFault {
    ghost use Rattle.std.specs.Prelude.{◌≡◌};
    ghost use Rattle.server_status.specs.declared.fault.StatusFault.TheVariants.{Memory};

    ghost from_gives = { λ e fault. fault ≡ Memory };

    fn from(_error: AllocError) -> StatusFault {
        StatusFault::Memory
    }
}
