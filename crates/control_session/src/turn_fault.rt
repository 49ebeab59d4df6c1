//! Faults of a turn.

use std::alloc::AllocError;

/// A fault of a turn.
#[derive(Clone, Copy, Debug, PartialEq, Eq)]
pub enum TurnFault {
    /// A reply could not be written.
    Write,
    /// Memory ran out.
    Memory,
}

impl From<AllocError> for TurnFault {
    ghost use Rattle.std.specs.Prelude.{◌≡◌};
    ghost use Rattle.control_session.specs.declared.turn_fault.TurnFault.TheVariants.{Memory};

    ghost from_gives = { λ _ fault. fault ≡ Memory };

    fn from(_error: AllocError) -> TurnFault {
        TurnFault::Memory
    }
}
