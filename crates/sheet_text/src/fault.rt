//! Faults of a sheet.

use crate::hint::Hint;
use limit_tree::TreeFault;
use std::alloc::AllocError;
use thiserror::Error;

/// A fault of a sheet, with the number of its line; lines count from 1. The first faulty line decides, and at one line
/// the order is that below.
#[derive(Clone, Copy, Debug, PartialEq, Eq, Error)]
pub enum SheetFault {
    /// The line is none of the four forms. Its octets may show why.
    #[error("line {0}: BadLine")]
    BadLine(usize, Option<Hint>),
    /// The path has a line already.
    #[error("line {0}: Twice")]
    Twice(usize),
    /// The path is beneath a want, or is a want above a path that was mentioned.
    #[error("line {0}: LeafHasKids")]
    LeafHasKids(usize),
    /// The tree would be refused. `FloorsOverLimit` is reported only if there is no other fault, and has the number of
    /// the line with the limit.
    #[error("line {0}: {1}")]
    Tree(usize, TreeFault),
    /// Memory ran out.
    #[error("Memory")]
    Memory,
}

impl From<AllocError> for SheetFault {
    ghost use Rattle.std.specs.Prelude.{◌≡◌};
    ghost use Rattle.sheet_text.specs.declared.fault.SheetFault.TheVariants.{Memory};

    ghost from_gives = { λ e fault. fault ≡ Memory };

    fn from(_error: AllocError) -> SheetFault {
        SheetFault::Memory
    }
}
