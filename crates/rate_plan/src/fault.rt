//! The reasons for which transfers are not planned.

use line_rates::{LimitsFault, Name, PlanFault};
use std::alloc::AllocError;
use thiserror::Error;

/// The reason for which transfers are not planned.
#[derive(Clone, Copy, Debug, PartialEq, Eq, Error)]
pub enum Unplanned {
    /// There are more transfers than sessions at once.
    #[error("more transfers than sessions at once")]
    TooManySessions,
    /// There are more transfers than lanes.
    #[error("more transfers than lanes")]
    TooManyTransfers,
    /// The guarantees of the sessions are not admitted: the place of the first transfer whose session is refused, and
    /// a name whose rate they exceed.
    #[error("the guarantees of the sessions are not admitted")]
    NotGuaranteed(usize, Option<Name>),
    /// More than 25 transfers by a rate above `MAX_PLANNED`.
    #[error("too many transfers at this rate")]
    RateTooLarge,
    /// The rates are refused: a user is in a group that has no row.
    #[error("{0}")]
    Rates(LimitsFault),
    /// The tree is refused.
    #[error("{0}")]
    Tree(PlanFault),
    /// Memory ran out.
    #[error("out of memory")]
    Memory,
}

impl From<AllocError> for Unplanned {
    ghost use Rattle.std.specs.Prelude.{◌≡◌};
    ghost use Rattle.rate_plan.specs.declared.fault.Unplanned.TheVariants.{Memory};

    ghost from_gives = { λ e fault. fault ≡ Memory };

    fn from(_error: AllocError) -> Unplanned {
        Unplanned::Memory
    }
}
