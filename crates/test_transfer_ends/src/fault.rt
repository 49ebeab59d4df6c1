//! Faults of funds.

use std::alloc::AllocError;

/// The reason for which a decision could not be made or entered.
#[derive(Clone, Copy, Debug, PartialEq, Eq)]
pub enum FundsFault {
    /// There was no memory.
    Memory,
    /// An amount was too large for a leaf, or for a book.
    Refused,
}

impl From<AllocError> for FundsFault {
    fn from(_: AllocError) -> FundsFault {
        FundsFault::Memory
    }
}
