//! The reasons for which nothing is shared among users.

use std::alloc::AllocError;
use thiserror::Error;

/// The reason for which nothing is shared among users.
#[derive(Clone, Copy, Debug, PartialEq, Eq, Error)]
pub enum UserShareFault {
    /// Memory ran out.
    #[error("out of memory")]
    Memory,
    /// The most that a user can have is above the largest want of a tree, `MAX_WANT` octets.
    #[error("a user wants too much")]
    WantTooLarge { user: usize },
}

impl From<AllocError> for UserShareFault {
    ghost use Rattle.std.specs.Prelude.{◌≡◌};
    ghost use Rattle.user_shares.specs.declared.fault.UserShareFault.TheVariants.{Memory};

    ghost from_gives = { λ e fault. fault ≡ Memory };

    fn from(_error: AllocError) -> UserShareFault {
        UserShareFault::Memory
    }
}
