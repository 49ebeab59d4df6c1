//! Faults of a grants file.

use sheet_text::Hint;
use std::alloc::AllocError;
use thiserror::Error;

/// A fault of a grants file, with the number of its line; lines count from 1. The first faulty line decides, and at one
/// line the order is that below.
#[derive(Clone, Copy, Debug, PartialEq, Eq, Error)]
pub enum GrantsFault {
    /// The line is neither of the two forms. Its octets may show why.
    #[error("line {0}: BadLine")]
    BadLine(usize, Option<Hint>),
    /// The path is not that of the sheet's next want, or each want has its line already.
    #[error("line {0}: WrongPath")]
    WrongPath(usize),
    /// The sheet has no node of the named path.
    #[error("line {0}: NoSuchNode")]
    NoSuchNode(usize),
    /// Memory ran out.
    #[error("Memory")]
    Memory,
}

impl From<AllocError> for GrantsFault {
    ghost use Rattle.std.specs.Prelude.{◌≡◌};
    ghost use Rattle.sheet_commands.specs.declared.grants_fault.GrantsFault.TheVariants.{Memory};

    ghost from_gives = { λ e fault. fault ≡ Memory };

    fn from(_error: AllocError) -> GrantsFault {
        GrantsFault::Memory
    }
}
