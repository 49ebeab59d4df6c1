//! Faults of opening a desk.

use std::alloc::AllocError;
use thiserror::Error;

/// The reason for which a desk cannot be opened.
#[derive(Clone, Copy, Debug, PartialEq, Eq, Error)]
pub enum DeskFault {
    /// It would have more than 64 lanes.
    #[error("a desk has at most 64 lanes")]
    TooMany,
    /// Memory ran out.
    #[error("out of memory")]
    Memory,
}

impl From<AllocError> for DeskFault {
    ghost use Rattle.std.specs.Prelude.{◌≡◌};
    ghost use Rattle.lane_desk.specs.declared.fault.DeskFault.TheVariants.{Memory};

    ghost from_gives = { λ e fault. fault ≡ Memory };

    fn from(_error: AllocError) -> DeskFault {
        DeskFault::Memory
    }
}
