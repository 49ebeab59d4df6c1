//! Faults of rates and of the trees of ticks.

use limit_tree::TreeFault;
use std::alloc::AllocError;
use thiserror::Error;

/// The reason for which rates are refused: the first of these that applies.
#[derive(Clone, Copy, Debug, PartialEq, Eq, Error)]
pub enum LimitsFault {
    /// A rate is above `MAX_RATE`.
    #[error("a rate is too large")]
    RateTooLarge,
    /// Two rows are for the same group or the same user.
    #[error("two rows are for the same group or user")]
    Twice,
    /// A user is in a group that has no row.
    #[error("a user is in a group without a row")]
    NoSuchGroup,
}

/// The reason for which the tree of a tick is refused.
#[derive(Clone, Copy, Debug, PartialEq, Eq, Error)]
pub enum PlanFault {
    /// The tree of the tick has a fault: a want above the largest, too many asks, or floors above a limit.
    #[error("{0}")]
    Tree(TreeFault),
    /// Memory ran out.
    #[error("out of memory")]
    Memory,
}

impl From<AllocError> for PlanFault {
    ghost use Rattle.std.specs.Prelude.{◌≡◌};
    ghost use Rattle.line_rates.specs.declared.fault.PlanFault.TheVariants.{Memory};

    ghost from_gives = { λ e fault. fault ≡ Memory };

    fn from(_error: AllocError) -> PlanFault {
        PlanFault::Memory
    }
}
