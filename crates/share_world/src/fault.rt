//! Faults of new worlds.

use std::alloc::AllocError;
use thiserror::Error;

/// The reason for which a world cannot be made.
#[derive(Clone, Copy, Debug, PartialEq, Eq, Error)]
pub enum WorldFault {
    /// There would be more than `grant_ledger::MAX_LANES` lanes.
    #[error("there are too many lanes")]
    TooMany,
    /// Memory ran out.
    #[error("out of memory")]
    Memory,
}

impl From<AllocError> for WorldFault {
    ghost use Rattle.std.specs.Prelude.{◌≡◌};
    ghost use Rattle.share_world.specs.declared.fault.WorldFault.TheVariants.{Memory};

    ghost from_gives = { λ e fault. fault ≡ Memory };

    fn from(_error: AllocError) -> WorldFault {
        WorldFault::Memory
    }
}
