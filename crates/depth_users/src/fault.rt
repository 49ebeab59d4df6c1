//! The reasons for which nothing is shared among users.

use std::alloc::AllocError;
use thiserror::Error;

/// The reason for which nothing is shared among the users of a depth.
#[derive(Clone, Copy, Debug, PartialEq, Eq, Error)]
pub enum DepthFault {
    /// Memory ran out.
    #[error("out of memory")]
    Memory,
    /// A user can have more octets than a leaf may want, `MAX_WANT`, and limits above it hold it back.
    #[error("a user can have too much")]
    UserTooLarge,
}

impl From<AllocError> for DepthFault {
    ghost use Rattle.std.specs.Prelude.{◌≡◌};
    ghost use Rattle.depth_users.specs.declared.fault.DepthFault.TheVariants.{Memory};

    ghost from_gives = { λ e fault. fault ≡ Memory };

    fn from(_error: AllocError) -> DepthFault {
        DepthFault::Memory
    }
}
