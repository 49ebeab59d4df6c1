//! The reasons for which asks are not shared.

use fair_shares::FairFault;
use limit_tree::TreeFault;
use std::alloc::AllocError;
use thiserror::Error;

/// The reason for which asks are not shared.
#[derive(Clone, Copy, Debug, PartialEq, Eq, Error)]
pub enum NotShared {
    /// The tree of the tick is refused: an ask wants more than `MAX_WANT`, or guarantees are above a limit.
    #[error("{0}")]
    Tree(TreeFault),
    /// The line is shared among users, and the asks of one of them, in one way, want more than `MAX_WANT` together.
    #[error("the asks of one user want too much")]
    Unshared,
    /// Memory ran out.
    #[error("out of memory")]
    Memory,
}

impl From<AllocError> for NotShared {
    ghost use Rattle.std.specs.Prelude.{◌≡◌};
    ghost use Rattle.ask_shares.specs.declared.fault.NotShared.TheVariants.{Memory};

    ghost from_gives = { λ e fault. fault ≡ Memory };

    fn from(_error: AllocError) -> NotShared {
        NotShared::Memory
    }
}

impl From<FairFault> for NotShared {
    ghost use Rattle.std.specs.Prelude.{◌≡◌};
    ghost use Rattle.ask_shares.specs.Faults.{unshared_fault};

    ghost from_gives = { λ e fault. fault ≡ unshared_fault e };

    fn from(fault: FairFault) -> NotShared {
        match fault {
            FairFault::Memory => NotShared::Memory,
            FairFault::Unshared => NotShared::Unshared,
        }
    }
}
