//! Refused entries of a book.

use thiserror::Error;

/// The reason for which a book refuses an entry. The book is unchanged.
#[derive(Clone, Copy, Debug, PartialEq, Eq, Error)]
pub enum BookFault {
    /// The tick is not above that of the last entry, which the variant contains.
    #[error("the tick is not above {0}, that of the last entry")]
    NotYet(u64),
    /// The book would have issued more than `MAX_ISSUED` octets.
    #[error("the book has no room for these octets")]
    BookFull,
}
