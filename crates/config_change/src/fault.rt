//! Configurations that a running server cannot take.

use line_rates::LimitsFault;
use std::alloc::AllocError;
use thiserror::Error;

/// The reason for which a configuration cannot get the numbers of a running server.
#[derive(Clone, Copy, Debug, PartialEq, Eq, Error)]
pub enum RenumberFault {
    /// All 2^32 numbers of users or of groups have been used.
    #[error("no number is left for a user or a group: restart the server, which numbers all of them anew")]
    NoNumber,
    /// The rates cannot be kept under these numbers. No configuration that was read has this fault.
    #[error("the rates of users and groups do not agree ({0})")]
    Limits(LimitsFault),
    #[error("out of memory")]
    Memory,
}

impl From<AllocError> for RenumberFault {
    ghost use Rattle.std.specs.Prelude.{◌≡◌};
    ghost use Rattle.config_change.specs.declared.fault.RenumberFault.TheVariants.{Memory};

    ghost from_gives = { λ _ fault. fault ≡ Memory };

    fn from(_error: AllocError) -> RenumberFault {
        RenumberFault::Memory
    }
}
