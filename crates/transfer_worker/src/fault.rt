//! Faults of opening a board.

use std::alloc::AllocError;
use thiserror::Error;

/// The reason for which a board cannot be opened. The reasons are checked in this order.
#[derive(Clone, Copy, Debug, PartialEq, Eq, Error)]
pub enum BoardFault {
    /// The board would have no places.
    #[error("a board has at least one place")]
    BadSize,
    /// There is no memory for the places or the passes.
    #[error("out of memory")]
    Memory,
}

impl From<AllocError> for BoardFault {
    ghost use Rattle.std.specs.Prelude.{◌≡◌};
    ghost use Rattle.transfer_worker.specs.declared.fault.BoardFault.TheVariants.{Memory};

    ghost from_gives = { λ _ fault. fault ≡ Memory };

    fn from(_error: AllocError) -> BoardFault {
        BoardFault::Memory
    }
}
