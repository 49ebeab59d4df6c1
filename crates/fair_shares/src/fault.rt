//! The reasons for which no fair grants are found.

use std::alloc::AllocError;
use thiserror::Error;
use user_shares::UserShareFault;

/// The reason for which no fair grants are found.
#[derive(Clone, Copy, Debug, PartialEq, Eq, Error)]
pub enum FairFault {
    /// Memory ran out.
    #[error("out of memory")]
    Memory,
    /// The line is shared among users, and the asks of one of them, in one way, want more than `MAX_WANT` octets together.
    #[error("the asks of one user want too many octets")]
    Unshared,
}

impl From<AllocError> for FairFault {
    ghost use Rattle.std.specs.Prelude.{◌≡◌};
    ghost use Rattle.fair_shares.specs.declared.fault.FairFault.TheVariants.{Memory};

    ghost from_gives = { λ e fault. fault ≡ Memory };

    fn from(_error: AllocError) -> FairFault {
        FairFault::Memory
    }
}

impl From<UserShareFault> for FairFault {
    ghost use Rattle.std.specs.Prelude.{◌≡◌};
    ghost use Rattle.fair_shares.specs.Unshared.{fault_of};

    ghost from_gives = { λ e fault. fault ≡ fault_of e };

    fn from(fault: UserShareFault) -> FairFault {
        match fault {
            UserShareFault::Memory => FairFault::Memory,
            UserShareFault::WantTooLarge { .. } => FairFault::Unshared,
        }
    }
}
