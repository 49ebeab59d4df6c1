//! Refusals of rounds.

use limit_tree::TreeFault;
use std::alloc::AllocError;
use thiserror::Error;

/// The reason for which a round is refused: the first of these that applies, in the order `NotYet`, `Plan`, `Memory` or
/// `Unshared`, `BookFull`.
#[derive(Clone, Copy, Debug, PartialEq, Eq, Error)]
pub enum RoundRefusal {
    /// The tick is not above that of the book's last entry, which the variant contains.
    #[error("the tick is not above {0}, that of the last round")]
    NotYet(u64),
    /// The book would have issued more than `MAX_ISSUED` octets.
    #[error("the book has no room for these octets")]
    BookFull,
    /// The limit tree of the tick has a fault.
    #[error("the limit tree of the tick is refused: {0}")]
    Plan(TreeFault),
    /// The line is shared among users, and the asks of one of them, in one way, want more than `MAX_WANT` octets together.
    #[error("the asks of one user want too many octets")]
    Unshared,
    /// Memory ran out.
    #[error("out of memory")]
    Memory,
}

impl From<AllocError> for RoundRefusal {
    ghost use Rattle.std.specs.Prelude.{◌≡◌};
    ghost use Rattle.lane_desk.specs.declared.refusal.RoundRefusal.TheVariants.{Memory};

    ghost from_gives = { λ e fault. fault ≡ Memory };

    fn from(_error: AllocError) -> RoundRefusal {
        RoundRefusal::Memory
    }
}
