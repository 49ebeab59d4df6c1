//! Refusals of events.

use std::alloc::AllocError;
use thiserror::Error;

/// The reason for which an event is refused; it then changes nothing. `NoLane` is checked first, then `WrongState`; for
/// a decision then `NotYet`, `TooMuch`, `FloorsOver`, `Unshared` or `Memory`, and `BookFull`.
#[derive(Clone, Copy, Debug, PartialEq, Eq, Error)]
pub enum StepFault {
    /// The event is not possible in the lane's state, or not all decided amounts are posted.
    #[error("the event is not possible in this state")]
    WrongState,
    /// There is no lane with that number.
    #[error("there is no lane with this number")]
    NoLane,
    /// More is moved than is in hand, or an ask wants more than the largest want.
    #[error("more octets than are possible")]
    TooMuch,
    /// The tick is not above that of the last decision, which the variant contains.
    #[error("the tick is not above {0}, that of the last decision")]
    NotYet(u64),
    /// The octets issued would exceed the most that one book issues.
    #[error("the book has no room for these octets")]
    BookFull,
    /// Memory ran out.
    #[error("out of memory")]
    Memory,
    /// The guarantees of the asks do not fit the limits of the tick.
    #[error("guarantees exceed the limits of the tick")]
    FloorsOver,
    /// The line is shared among users, and the asks of one of them, in one way, want more than 4,294,967,295 octets in
    /// total.
    #[error("the asks of one user want too many octets")]
    Unshared,
}

impl From<AllocError> for StepFault {
    ghost use Rattle.std.specs.Prelude.{◌≡◌};
    ghost use Rattle.world_terms.specs.declared.fault.StepFault.TheVariants.{Memory};

    ghost from_gives = { λ e fault. fault ≡ Memory };

    fn from(_error: AllocError) -> StepFault {
        StepFault::Memory
    }
}
